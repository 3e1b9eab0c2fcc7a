// Module 11: each group field becomes the fields of its group, fixed as its constraints say.
#![tactic(auto)]

ghost use Rattle.std.specs.Prelude.{◌≡◌, length};
ghost use Rattle.rules.specs.InlineGroups.{inlined};
ghost use Rattle.inline_groups.specs.Inlinings.{inlining, inlining_numbered, by_fit, inlining_records};

use group_sizes::{Groups, Listed};
use group_table::ExpandProgress;
use rules::limits::MOST_RECORDS;
use rules::{FieldKey, Record};

// Why there is no inlined table: a row of the table of replies, or a buffer that is too short for it.
#[derive(Clone, Copy)]
pub enum InlineError {
    Swollen,
    // the inlined table has more records than the buffer
    BufferShort,
    Unfit(FieldKey),
}

fn by_fit(progress: ExpandProgress) -> Result<usize, InlineError>
    ensures { result ≡ by_fit progress.count progress.unfit }
{
    match progress.unfit {
        None => Ok(progress.count),
        Some(key) => Err(InlineError::Unfit(key)),
    }
}

// Inlines the groups of a table into a buffer, if the inlined table fits it.
fn inline_with(groups: &Groups, out: &mut [Record]) -> Result<usize, InlineError>
    ensures { (result ≡ inlining (length out.old) (inlined groups.now.table.records.now))
        × (out.new ≡ inlining_records out.old (inlined groups.now.table.records.now)) }
{
    let n = groups.total();
    if MOST_RECORDS < n {
        return Err(InlineError::Swollen);
    }
    if out.len() < n {
        return Err(InlineError::BufferShort);
    }
    by_fit(group_table::write_all(groups, out))
}

// Inlines the groups of a table in listed order into a buffer, if the inlined table fits it. Returns how many records it has.
pub fn inline_groups(listed: Listed, out: &mut [Record]) -> Result<usize, InlineError>
    ensures value { (result ≡ inlining (length out.old) (inlined listed.entry.table.records.now))
        × (out.new ≡ inlining_records out.old (inlined listed.entry.table.records.now)) }
    ensures numbered { inlining_numbered result ≡ inlining_numbered (inlining (length out.old) (inlined listed.entry.table.records.now)) }
{
    let mut targets = [0; MOST_RECORDS];
    let mut sizes = [0; MOST_RECORDS];
    let groups = Groups::new(listed, &mut targets, &mut sizes);
    inline_with(&groups, out)
}
