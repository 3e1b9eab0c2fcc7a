// The nine passes in their order, then the table: the rows from Faulty on.
#![tactic(auto)]

ghost use Rattle.std.specs.Prelude.{◌≡◌, [], ◌≤◌, length};
ghost use Rattle.rules.specs.Scopes.{pass1};
ghost use Rattle.rules.specs.Replies.{answered, by_passes};
ghost use Rattle.passes.specs.Listed.{by_listed};

use group_sizes::Listed;
use rules::{Record, Reply};
use table::Table;

// Passes 3 to 9, then the table.
fn check_listed(listed: Listed, table: &mut [u8], faults: &mut [u8]) -> Reply
    ensures { answered result table.new faults.new ≡ by_listed listed.entry.table.records.now table.old faults.old }
{
    match pass_checks::run_later(listed.table, faults) {
        Err(faulty) => Reply::Faulty(faulty.pass, faulty.total),
        Ok(()) => accepted_table::write_listed(listed, table),
    }
}

// Pass 2, on a table without faults in pass 1, then what follows on the table that it lists.
fn check_order(input: Table, listed: &mut [Record], table: &mut [u8], faults: &mut [u8]) -> Reply
    requires { (length input.records.now ≤ length listed.old) × (pass1 input.records.now ≡ []) }
    ensures { answered result table.new faults.new ≡ by_passes input.entry.records.now table.old faults.old }
{
    match decl_order::check_decl_identifiers(input, faults, listed) {
        Err(tally) => Reply::Faulty(2, tally.total),
        Ok(n) => {
            let records = &listed[..n];
            let listed = Listed {
                table: Table { records },
            };
            check_listed(listed, table, faults)
        }
    }
}

// Passes 1 and 2, then what follows.
pub fn check_passes(
    input: Table,
    listed: &mut [Record],
    table: &mut [u8],
    faults: &mut [u8],
) -> Reply
    requires { length input.records.now ≤ length listed.old }
    ensures { answered result table.new faults.new ≡ by_passes input.entry.records.now table.old faults.old }
{
    let tally = pass_checks::scope_new(input.records, faults);
    if 0 < tally.total {
        return Reply::Faulty(1, tally.total);
    }
    check_order(input, listed, table, faults)
}
