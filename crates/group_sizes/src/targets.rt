// The declarations that group fields name, by place.
ghost use Rattle.std.specs.Prelude.{List, ℕ, ◌≤◌, length};
ghost use Rattle.group_sizes.specs.GroupsFirst.{GroupsFirst};
ghost use Rattle.group_sizes.specs.Targets.{TargetsKnown};

use crate::Listed;
use declarations::Names;
use declarations::starts::large;
use rules::Record;
use table::{NO_PLACE, REMAINDERS};

// The place of the first group field, or the end of the table: below it any targets are right.
fn first_group_field(table: &[Record]) -> usize
    ensures { (result ≤ length table.now) × ((targets : List ℕ) → length table.now ≤ length targets → TargetsKnown table.now targets result) }
{
    let end = table.len();
    (0..end)
        .find(|p| table::kind(table, *p) == kinds::GROUP_FIELD)
        .unwrap_or(end)
}

// Writes, at the place of each group field from `from` on, the place of the declaration that it names: one search for each.
// The bound and the order are clauses here: `Names` can't hold them, as passes 1 and 6 take it for any table, and a struct of listed names would be
// made and taken in this file alone. So is `TargetsKnown`: it holds up to a place, and only where sizes are measured is it read whole.
fn fill_from(names: &Names, from: usize, targets: &mut [u16])
    requires table_len_bound { (length names.now.table.now ≤ 1600) × (from ≤ length names.now.table.now)
        × TargetsKnown names.now.table.now targets.old from }
    requires groups_first { GroupsFirst names.now.table.now }
    ensures { TargetsKnown names.now.table.now targets.new (length names.now.table.now) }
{
    for p in from..names.table.len() {
        if table::kind(names.table, p) == kinds::GROUP_FIELD {
            if let Some(g) = names.decl_named(table::at(names.table, p).second) {
                targets[p] = g as u16;
            }
        }
    }
}

// Writes, at the place of each group field, the place of the declaration that it names. A table without group fields needs no starts.
pub fn fill(listed: Listed, targets: &mut [u16])
    requires { length listed.table.records.now ≤ length targets.old }
    ensures { TargetsKnown listed.entry.table.records.now targets.new (length listed.entry.table.records.now) }
{
    let records = listed.table.records;
    let first = first_group_field(records);
    if first == records.len() {
        return;
    }
    // The array is made only for a large table, as those of pass_faults.
    let Some(large) = large(records) else {
        fill_from(&Names::new(records), first, targets);
        return;
    };
    let mut starts = [NO_PLACE; REMAINDERS];
    let names = Names::with_starts(large, &mut starts);
    fill_from(&names, first, targets);
}
