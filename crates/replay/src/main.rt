// Replays stored tables through parts of the analyzer: a line for each case says what the part answered.
#![tactic(auto)]

ghost use Rattle.std.specs.Prelude.{◌≤◌, IfOk, IfSome, length};

use replay_cases::Case;
use replay_cases::part::Part;
use rules::limits::{FAULT_LENGTH, MOST_RECORDS, TABLE_LENGTH};
use rules::{LayoutError, Record, Reply, Tally};
use std::io::{Input, Print, Read};
use table::Table;

// No record has this kind.
const NO_KIND: u8 = 255;

// The row of the layout's reply, 0 for a sound layout, and the place.
fn print_layout<R: Print>(rt: &R, layout: Result<(), LayoutError>) {
    match layout {
        Err(LayoutError::Uneven) => replay_cases::print(rt, 1, b'\n'),
        Err(LayoutError::TooLong) => replay_cases::print(rt, 2, b'\n'),
        Err(LayoutError::Malformed(place)) => {
            replay_cases::print(rt, 3, b' ');
            replay_cases::print(rt, place as u64, b'\n');
        }
        Ok(()) => replay_cases::print(rt, 0, b'\n'),
    }
}

// The faults kept, the faults found and the digest of the fault buffer.
fn print_faults<R: Print>(rt: &R, tally: Tally, faults: &[u8], end: u8) {
    replay_cases::print(rt, tally.kept as u64, b' ');
    replay_cases::print(rt, tally.total as u64, b' ');
    replay_cases::print(rt, replay_cases::digest(faults), end);
}

// The longest input that is read has one record more than a table may have.
const MOST_READ: usize = MOST_RECORDS + 1;

fn print_scope<R: Print>(rt: &R, input: &[u8], faults: &mut [u8]) {
    replay_cases::fill(faults);
    if MOST_READ < records::count(input) {
        return;
    }
    let mut table = [Record::default(); MOST_READ];
    let n = records::read(input, &mut table);
    let tally = pass_checks::scope_new(&table[..n], faults);
    print_faults(rt, tally, faults, b'\n');
}

// Pass 2 on a fault buffer filled with 7: its faults, or how many records it lists. None for an input of too many records.
fn order(input: &[u8], faults: &mut [u8], listed: &mut [Record]) -> Option<Result<usize, Tally>>
    requires { 1600 ≤ length listed.old }
    ensures { IfSome result (λ r. IfOk r (λ n. n ≤ 1600)) }
{
    replay_cases::fill(faults);
    if MOST_RECORDS < records::count(input) {
        return None;
    }
    let mut records = [Record::default(); MOST_RECORDS];
    let n = records::read(input, &mut records);
    let table = Table {
        records: &records[..n],
    };
    Some(decl_order::check_decl_identifiers(table, faults, listed))
}

// A record that stands where pass 2 lists none.
fn unlisted() -> Record {
    Record {
        kind: NO_KIND,
        ..Record::default()
    }
}

// Whether all ten numbers of two records are the same.
fn same(a: Record, b: Record) -> bool {
    let names = (a.name == b.name) & (a.second == b.second) & (a.third == b.third);
    let values = (a.one == b.one) & (a.two == b.two) & (a.key == b.key);
    let places = (a.start == b.start) & (a.end == b.end);
    (a.kind == b.kind) & (a.marks == b.marks) & names & values & places
}

// Whether these are the records at the start of the bytes.
fn starts_with(bytes: &[u8], records: &[Record]) -> bool {
    if records::count(bytes) < records.len() {
        return false;
    }
    for (place, record) in records.iter().enumerate() {
        if !same(*record, records::record(bytes, place)) {
            return false;
        }
    }
    true
}

// Whether pass 2 on records lists the first records of the bytes, and leaves all others of its buffer as they were.
fn lists_same(bytes: &[u8], listed: &[Record], count: usize) -> bool
    requires { count ≤ length listed.now }
{
    starts_with(bytes, &listed[..count]) && listed[count..].iter().all(|r| same(*r, unlisted()))
}

// How many records an answer of pass 2 lists, and its faults.
fn count_and_tally(answer: Result<usize, Tally>) -> (usize, Tally)
    requires { IfOk answer (λ n. n ≤ 1600) }
    ensures { result.0 ≤ 1600 }
{
    match answer {
        Ok(count) => (count, faults::no_faults()),
        Err(tally) => (0, tally),
    }
}

// The faults, the number of listed records and the digest of the buffer that their bytes are copied to. Where pass 2 on records answers
// otherwise, the case ends, so that the output differs.
fn print_order<R: Print>(rt: &R, input: &[u8], faults: &mut [u8], out: &mut [u8]) {
    if (out.len() < TABLE_LENGTH) | (MOST_RECORDS < records::count(input)) {
        return;
    }
    let mut listed = [unlisted(); MOST_RECORDS];
    let Some(answer) = order(input, faults, &mut listed) else {
        return;
    };
    let (listed_count, listed_tally) = count_and_tally(answer);
    let noted = replay_cases::digest(faults);
    replay_cases::fill(faults);
    replay_cases::fill(out);
    let answer = decl_order::bytes::check_decl_identifiers(input, faults, out);
    let (count, tally) = count_and_tally(answer);
    let counts = (listed_tally.kept == tally.kept)
        & (listed_tally.total == tally.total)
        & (listed_count == count);
    if !counts || noted != replay_cases::digest(faults) || !lists_same(out, &listed, count) {
        return;
    }
    print_faults(rt, tally, faults, b' ');
    replay_cases::print(rt, count as u64, b' ');
    replay_cases::print(rt, replay_cases::digest(out), b'\n');
}

// The lowest of passes 3 to 9 that finds faults, or 0, and its faults.
fn print_later<R: Print>(rt: &R, listed: Table, faults: &mut [u8]) {
    match pass_checks::run_later(listed, faults) {
        Err(faulty) => {
            let total = faulty.total;
            replay_cases::print(rt, u64::from(faulty.pass), b' ');
            let tally = Tally {
                kept: total.min(faults.len() / FAULT_LENGTH),
                total,
            };
            print_faults(rt, tally, faults, b'\n');
        }
        Ok(()) => {
            replay_cases::print(rt, 0, b' ');
            print_faults(rt, faults::no_faults(), faults, b'\n');
        }
    }
}

// Passes 3 to 9 on the table that pass 2 lists: one of no records where it finds faults.
fn print_checks<R: Print>(rt: &R, input: &[u8], faults: &mut [u8]) {
    let mut listed = [Record::default(); MOST_RECORDS];
    if let Some(checked) = order(input, faults, &mut listed) {
        let n = checked.unwrap_or(0);
        let table = Table {
            records: &listed[..n],
        };
        print_later(rt, table, faults);
    }
}

// The row of the reply and its values.
fn print_reply<R: Print>(rt: &R, reply: Reply) {
    match reply {
        Reply::Uneven => replay_cases::print(rt, 1, b' '),
        Reply::TooLong => replay_cases::print(rt, 2, b' '),
        Reply::Malformed(place) => print_row(rt, 3, place as u64),
        Reply::Faulty(pass, total) => {
            print_row(rt, 4, u64::from(pass));
            replay_cases::print(rt, total as u64, b' ');
        }
        Reply::Swollen => replay_cases::print(rt, 5, b' '),
        Reply::Unfit(key) => print_row(rt, 6, u64::from(key.0)),
        Reply::Loose(key) => print_row(rt, 7, u64::from(key.0)),
        Reply::Overlisted => replay_cases::print(rt, 8, b' '),
        Reply::NoRoom(needed) => print_row(rt, 9, needed as u64),
        Reply::Accepted(records) => print_row(rt, 10, records as u64),
    }
}

fn print_row<R: Print>(rt: &R, row: u64, value: u64) {
    replay_cases::print(rt, row, b' ');
    replay_cases::print(rt, value, b' ');
}

// The whole analyzer: the reply and the digests of both buffers.
fn print_whole<R: Print>(rt: &R, input: &[u8], table: &mut [u8], faults: &mut [u8]) {
    replay_cases::fill(table);
    replay_cases::fill(faults);
    print_reply(rt, analyzer::analyze(input, table, faults));
    replay_cases::print(rt, replay_cases::digest(table), b' ');
    replay_cases::print(rt, replay_cases::digest(faults), b'\n');
}

// A line for a case, with a fault buffer of its length.
fn print_case<R: Print>(rt: &R, case: Case, input: &[u8], faults: &mut [u8], out: &mut [u8])
    requires { case.table ≤ length out.old }
{
    match case.part {
        Some(Part::Layout) => print_layout(rt, layout::check_layout(input)),
        Some(Part::Scope) => print_scope(rt, input, faults),
        Some(Part::Order) => print_order(rt, input, faults, out),
        Some(Part::Checks) => print_checks(rt, input, faults),
        Some(Part::Whole) => print_whole(rt, input, &mut out[..case.table], faults),
        None => replay_cases::print(rt, 0, b'?'),
    }
}

// One case; false at the end.
fn one_case<R: Print, S: Read>(
    rt: &R,
    reader: &mut S,
    input: &mut [u8],
    faults: &mut [u8],
    out: &mut [u8],
) -> bool {
    let Some(case) = replay_cases::next_case(reader, input) else {
        return false;
    };
    if faults.len() < case.faults || out.len() < case.table {
        return false;
    }
    print_case(
        rt,
        case,
        &input[..case.input],
        &mut faults[..case.faults],
        out,
    );
    true
}

fn run<R: Input + Print>(rt: &R, input: &mut [u8], faults: &mut [u8], out: &mut [u8]) {
    let mut reader = rt.reader();
    for _ in 0..u64::MAX {
        if !one_case(rt, &mut reader, input, faults, out) {
            return;
        }
    }
}

fn main(rt: HostRuntime) {
    let mut input = replay_cases::buffers::input_buffer();
    let mut faults = replay_cases::buffers::buffer();
    let mut out = replay_cases::buffers::buffer();
    run(&rt, &mut input, &mut faults, &mut out);
}
