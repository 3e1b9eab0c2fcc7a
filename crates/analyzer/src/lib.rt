// The analyzer: the rows of the table of replies, first match from the top.
#![tactic(auto)]

ghost use Rattle.std.specs.Prelude.{◌≡◌, ◌≤◌, length};
ghost use Rattle.rules.specs.Table.{decode};
ghost use Rattle.rules.specs.Replies.{answered, by_passes, answer};

use passes::check_passes;
use rules::limits::MOST_RECORDS;
use rules::{Record, Reply};
use table::{FEW_RECORDS, Table};

// With room of its own for N records of the table and of the listed table: the caller's buffer changes only on acceptance.
fn check_in<const N: usize>(input: &[u8], table: &mut [u8], faults: &mut [u8]) -> Reply
    requires { (length (decode input.now) ≤ 1600) × (length (decode input.now) ≤ N) × (N ≤ 1600) }
    ensures { answered result table.new faults.new ≡ by_passes (decode input.now) table.old faults.old }
{
    let mut records = [Record::default(); N];
    let mut listed = [Record::default(); N];
    let n = records::read(input, &mut records);
    let input = Table {
        records: &records[..n],
    };
    check_passes(input, &mut listed, table, faults)
}

// A length of buffers between those for a small table and for the longest, as to clear the latter takes half of the time of a table of 65 tests.
const SOME_RECORDS: usize = 400;

// The passes with buffers as large as the table needs.
fn check_table(input: &[u8], table: &mut [u8], faults: &mut [u8]) -> Reply
    requires { length (decode input.now) ≤ 1600 }
    ensures { answered result table.new faults.new ≡ by_passes (decode input.now) table.old faults.old }
{
    let count = records::count(input);
    if count <= FEW_RECORDS {
        return check_in::<FEW_RECORDS>(input, table, faults);
    }
    if count <= SOME_RECORDS {
        return check_in::<SOME_RECORDS>(input, table, faults);
    }
    check_in::<MOST_RECORDS>(input, table, faults)
}

// Analyzes a table: the reply, the accepted table at the start of one buffer or the first faults in the other.
pub fn analyze(input: &[u8], table: &mut [u8], faults: &mut [u8]) -> Reply
    ensures { answered result table.new faults.new ≡ answer input.now table.old faults.old }
{
    match layout::check_layout(input) {
        Ok(()) => check_table(input, table, faults),
        Err(error) => Reply::from(error),
    }
}
