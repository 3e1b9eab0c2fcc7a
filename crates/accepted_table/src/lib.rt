// The listed table rewritten: groups inlined, then flags made, into the table buffer.
#![tactic(auto)]

ghost use Rattle.std.specs.Prelude.{◌≡◌, List, ℕ, ◌≤◌, length};
ghost use Rattle.rules.specs.InlineGroups.{inlined};
ghost use Rattle.rules.specs.Replies.{answered, by_size};
ghost use Rattle.accepted_table.specs.Wrote.{Wrote};

use group_sizes::Listed;
use inline_groups::InlineError;
use rules::limits::MOST_RECORDS;
use rules::{Record, Reply};
use table::{FEW_RECORDS, Table};

// Room for the records of most small tables, inlined.
const FEW_INLINED: usize = 2 * FEW_RECORDS;

// Groups inlined into a buffer, then flags made: the rows from Swollen on, for a table in listed order. None where the buffer is too short
// for the inlined table.
fn write_table(listed: Listed, expanded: &mut [Record], table: &mut [u8]) -> Option<Reply>
    ensures { Wrote (length expanded.old) listed.entry.table.records.now table.old table.new result }
{
    match inline_groups::inline_groups(listed, expanded) {
        Ok(n) => {
            let records = &expanded[..n];
            Some(desugar_flags::desugar_flags(Table { records }, table))
        }
        Err(InlineError::Swollen) => Some(Reply::Swollen),
        Err(InlineError::BufferShort) => None,
        Err(InlineError::Unfit(key)) => Some(Reply::Unfit(key)),
    }
}

// With room for `N` records.
fn write_in<const N: usize>(listed: Listed, table: &mut [u8]) -> Option<Reply>
    requires { N ≤ 1600 }
    ensures { Wrote N listed.entry.table.records.now table.old table.new result }
{
    let mut expanded = [Record::default(); N];
    write_table(listed, &mut expanded, table)
}

// With the small buffer first where it is likely to do: a large one takes longer to clear than a small table to analyze. For the large one,
// of 1,600 records, no inlined table is too long.
pub fn write_listed(listed: Listed, table: &mut [u8]) -> Reply
    ensures { (f : List ℕ) → answered result table.new f ≡ by_size (inlined listed.entry.table.records.now) table.old f }
{
    if listed.table.records.len() <= FEW_RECORDS {
        if let Some(reply) = write_in::<FEW_INLINED>(listed, table) {
            return reply;
        }
    }
    write_in::<MOST_RECORDS>(listed, table).unwrap_or(Reply::Swollen)
}
