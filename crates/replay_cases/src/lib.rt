// Stored cases, read from a reader, and what is printed of them.
// A case is four numbers of four bytes (the part of the analyzer that it is for, and the lengths of the input, of the table buffer and
// of the fault buffer) and the input.
#![tactic(auto)]

pub mod buffers;
pub mod part;

ghost use Rattle.std.specs.Prelude.{IfSome, length};
ghost use Rattle.replay_cases.specs.Cases.{CaseFits};

use part::Part;
use rules::limits::TABLE_LENGTH;
use std::io::{Print, Read};

// What a case is for, and its lengths.
#[derive(Clone, Copy)]
pub struct Case {
    // None: the number of no part
    pub part: Option<Part>,
    pub input: usize,
    pub table: usize,
    pub faults: usize,
}

// Reads the next case, whose input then stands at the start of the buffer; None at the end of the stored cases. A case that is cut short or too
// long for the buffers ends the replay, so that the output differs.
pub fn next_case<R: Read>(reader: &mut R, input: &mut [u8]) -> Option<Case>
    ensures { IfSome result (CaseFits (length input.new)) }
{
    let mut head = [0u8; 16];
    reader.read_exact(&mut head).ok()?;
    let part = Part::try_from(numbers::number4(&head, 0)).ok();
    let size = numbers::number4(&head, 4) as usize;
    let table = numbers::number4(&head, 8) as usize;
    let faults = numbers::number4(&head, 12) as usize;
    if input.len() < size || TABLE_LENGTH < table || TABLE_LENGTH < faults {
        return None;
    }
    reader.read_exact(&mut input[..size]).ok()?;
    Some(Case {
        part,
        input: size,
        table,
        faults,
    })
}

// A digest of bytes, as the oracle makes it.
pub fn digest(bytes: &[u8]) -> u64 {
    let mut sum = 7;
    for byte in bytes {
        sum = (sum * 31 + u64::from(*byte)) % 0x1_0000_0000;
    }
    sum
}

// Fills a buffer with 7, so that a byte written too many shows.
pub fn fill(buffer: &mut [u8]) {
    buffer.fill(7);
}

// A number and a byte behind it. A write that fails is let go, as the output then differs.
pub fn print<R: Print>(rt: &R, number: u64, end: u8) {
    let _ = rt.print(number);
    let text = [end];
    let _ = rt.write_all(&text);
}
