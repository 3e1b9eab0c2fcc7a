// The program's body: standard input to its end, the analyzer, and the printed answer in one text.
#![tactic(auto)]

mod input;

ghost use Rattle.std.specs.Prelude.{◌≡◌, ◌≤◌, length};
ghost use Rattle.rules.specs.Replies.{answer};
ghost use Rattle.rules.specs.Printed.{printed, program};
ghost use Rattle.printed_text.specs.TextAppended.{TextBegins};

use input::INPUT_LENGTH;
use rules::limits::TABLE_LENGTH;
use std::io::{Eprint, Error, Input, Print};

// Room for what one read may bring.
const CHUNK_LENGTH: usize = 65_536;

// Its length is a clause: into a chunk of none nothing is read.
fn chunk_buffer() -> [u8; CHUNK_LENGTH]
    ensures { 65536 ≡ length result }
{
    [0; CHUNK_LENGTH]
}

// Room for all that the program can print.
const TEXT_LENGTH: usize = 340_000;

// The analyzer with these buffers, and its answer, printed at the start of the text.
fn answer_with(
    input: &[u8],
    table: &mut [u8],
    faults: &mut [u8],
    text: &mut [u8; TEXT_LENGTH],
) -> usize
    requires { (length table.old ≤ 64000) × (length faults.old ≤ 64000) }
    ensures { TextBegins text.old (printed (answer input.now table.old faults.old)) text.new result }
{
    let reply = analyzer::analyze(input, table, faults);
    printed::append_answer(text, reply, table, faults)
}

// All that the program prints for an input, at the start of the text, and its length.
fn answer_text(input: &[u8], text: &mut [u8; TEXT_LENGTH]) -> usize
    ensures { TextBegins text.old (program input.now) text.new result }
{
    let mut table = [0u8; TABLE_LENGTH];
    let mut faults = [0u8; TABLE_LENGTH];
    answer_with(input, &mut table, &mut faults, text)
}

// What failed and why, on standard error. Nothing is left to tell if that fails too.
fn fail<R: Eprint>(rt: &R, what: &str, error: Error) {
    let _ = eprintln!(rt; "{what}: {error}");
}

// Prints the answer in one piece. A write that fails is said on standard error.
fn print<R: Print + Eprint>(rt: &R, input: &[u8]) {
    let mut text = [0u8; TEXT_LENGTH];
    let n = answer_text(input, &mut text);
    if let Err(e) = rt.write_all(&text[..n]) {
        fail(rt, "standard output", e);
    }
}

// A read that fails is said on standard error, and nothing is answered.
pub fn run<R: Input + Print + Eprint>(rt: &R) {
    let mut input = [0u8; INPUT_LENGTH];
    let mut chunk = chunk_buffer();
    let mut reader = rt.reader();
    match input::read_all(&mut reader, &mut input, &mut chunk) {
        Ok(n) => print(rt, &input[..n]),
        Err(e) => fail(rt, "standard input", e),
    }
}
