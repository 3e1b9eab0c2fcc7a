// Orders the two deepest tables. Prints of each how many records are listed, how many faults are found and
// which name is listed first.
#![tactic(auto)]

ghost use Rattle.std.specs.Prelude.{◌≡◌, ℕ, ◌<◌, length};

use rules::Record;
use rules::limits::{FAULT_LENGTH, MOST_RECORDS};
use std::io::Print;
use table::Table;

// The last place of the longest table, and the name of the declaration there.
const LAST: usize = MOST_RECORDS - 1;

const LAST_NAME: u16 = MOST_RECORDS as u16;

// A record with these numbers, all others 0.
fn record(kind: u8, name: u16, second: u16) -> Record {
    Record {
        kind,
        name,
        second,
        ..Record::default()
    }
}

// The struct at `place`, whose parent is the next one.
fn child(place: usize) -> Record
    requires { place < 1600 }
{
    if place < LAST {
        return record(kinds::STRUCT, (place + 1) as u16, (place + 2) as u16);
    }
    record(kinds::STRUCT, LAST_NAME, 0)
}

// The record at `place`: a struct at even places, behind it a field of the next one's type; the very last is Reserved.
fn holder(place: usize) -> Record
    requires { place < 1600 }
{
    if place == LAST {
        return record(kinds::RESERVED, 0, 0);
    }
    if place % 2 == 0 {
        return record(kinds::STRUCT, (place + 1) as u16, 0);
    }
    record(kinds::TYPEDEF, 1, (place + 2) as u16)
}

// Fills the longest table with what `f` gives for each place.
fn fill<F: Fn(usize) -> Record>(table: &mut [Record], f: F)
    requires { (length table.old ≡ 1600) × ((p : ℕ) → p < 1600 → F.pre f p) }
{
    for (place, record) in table.iter_mut().enumerate() {
        *record = f(place);
    }
}

// A number on a line. A write that fails is let go, as the output then differs.
fn line<R: Print>(rt: &R, number: u64) {
    let _ = println!(rt; "{number}");
}

// Orders the table and prints what came of it.
fn show<R: Print>(rt: &R, records: &[Record], buffer: &mut [u8], out: &mut [Record])
    requires { (length records.now ≡ 1600) × (length out.old ≡ 1600) }
{
    let table = Table { records };
    let (listed, found) = match decl_order::check_decl_identifiers(table, buffer, out) {
        Ok(records) => (records, 0),
        Err(tally) => (0, tally.total),
    };
    line(rt, listed as u64);
    line(rt, found as u64);
    line(rt, u64::from(out[0].name));
}

fn main(rt: HostRuntime) {
    let mut table = [Record::default(); MOST_RECORDS];
    let mut out = [Record::default(); MOST_RECORDS];
    let mut buffer = [0u8; 10 * FAULT_LENGTH];
    // 1,600 structs, each the child of the next.
    fill(&mut table, child);
    show(&rt, &table, &mut buffer, &mut out);
    // 800 structs, each with a field of the next.
    fill(&mut table, holder);
    show(&rt, &table, &mut buffer, &mut out);
}
