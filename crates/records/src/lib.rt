// The records of a table, read from its bytes.
#![tactic(auto)]

ghost use Rattle.std.specs.Prelude.{◌≡◌, ◌++◌, ◌+◌, ◌*◌, ◌<◌, ◌≤◌, length, drop};
ghost use Rattle.rules.specs.Table.{decode, at, record_at};

use numbers::{number2, number4, number8};
use rules::Record;
use rules::limits::RECORD_LENGTH;

// How many whole records the bytes hold.
pub fn count(bytes: &[u8]) -> usize
    ensures { result ≡ length (decode bytes.now) }
{
    bytes.len() / RECORD_LENGTH
}

// Where the bytes of `place` start. Its 40 bytes are within the table.
pub fn base(bytes: &[u8], place: usize) -> usize
    requires { place < length (decode bytes.now) }
    ensures { (result ≡ 40 * place) × (at (decode bytes.now) place ≡ record_at bytes.now result) × (result + 40 ≤ length bytes.now) }
{
    RECORD_LENGTH * place
}

// The record at a place. No From of its 40 bytes, as neither type is this crate's own.
pub fn record(bytes: &[u8], place: usize) -> Record
    requires { place < length (decode bytes.now) }
    ensures { result ≡ at (decode bytes.now) place }
{
    let i = base(bytes, place);
    Record {
        kind: bytes[i],
        marks: bytes[i + 1],
        name: number2(bytes, i + 2),
        second: number2(bytes, i + 4),
        third: number2(bytes, i + 6),
        one: number8(bytes, i + 8),
        two: number8(bytes, i + 16),
        key: number2(bytes, i + 24),
        start: number4(bytes, i + 28),
        end: number4(bytes, i + 32),
    }
}

// Writes the records to the start of `table`, all others of its records unchanged. Returns how many there are.
pub fn read(bytes: &[u8], table: &mut [Record]) -> usize
    requires { length (decode bytes.now) ≤ length table.old }
    ensures { (result ≡ length (decode bytes.now)) × (table.new ≡ decode bytes.now ++ drop result table.old) }
{
    let n = count(bytes);
    for place in 0..n {
        table[place] = record(bytes, place);
    }
    n
}
