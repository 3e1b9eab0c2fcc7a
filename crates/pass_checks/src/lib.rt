// The passes in order: pass 1, and passes 3 to 9 on the listed order.
#![tactic(auto)]

ghost use Rattle.std.specs.Prelude.{◌≡◌, ◌<◌, ◌≤◌, MatchResult};
ghost use Rattle.rules.specs.Faults.{log, logged};
ghost use Rattle.rules.specs.Scopes.{pass1};
ghost use Rattle.pass_checks.specs.Later.{outcome, later};

use enum_declarations::check_enum_declarations;
use pass_faults::{
    check_array_fields, check_field_identifiers, check_fixed_fields, check_padding_fields,
    check_payload_fields, check_scopes, check_size_fields,
};
use rules::{Record, Tally};
use table::Table;

// All faults of pass 1.
pub fn scope_new(table: &[Record], buffer: &mut [u8]) -> Tally
    ensures { log result buffer.new ≡ logged buffer.old (pass1 table.now) }
{
    check_scopes(table, buffer)
}

// A pass that finds faults, by its number, as the reply gives it to C, and how many it finds.
#[derive(Clone, Copy)]
pub struct Faulty {
    pub pass: u8,
    pub total: usize,
}

// Whether a pass found no faults.
fn clean(pass: u8, tally: Tally) -> Result<(), Faulty>
    ensures { MatchResult result (λ _. tally.total ≤ 0) (λ f. (0 < tally.total) × (f ≡ record { pass = pass; total = tally.total })) }
{
    if 0 < tally.total {
        return Err(Faulty {
            pass,
            total: tally.total,
        });
    }
    Ok(())
}

// Passes 3 to 9 in order, up to the first that finds faults. Only that one writes.
pub fn run_later(table: Table, buffer: &mut [u8]) -> Result<(), Faulty>
    ensures { outcome result buffer.new ≡ later table.entry.records.now buffer.old }
{
    clean(3, check_field_identifiers(table.records, buffer))?;
    clean(4, check_enum_declarations(table, buffer))?;
    clean(5, check_size_fields(table.records, buffer))?;
    clean(6, check_fixed_fields(table.records, buffer))?;
    clean(7, check_payload_fields(table.records, buffer))?;
    clean(8, check_array_fields(table.records, buffer))?;
    clean(9, check_padding_fields(table.records, buffer))
}
