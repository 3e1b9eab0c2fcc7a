// Pass 8, `check_array_fields`: code 38 at the first Size or Count that names an array of fixed count.
#![tactic(auto)]

ghost use Rattle.std.specs.Prelude.{◌≡◌};
ghost use Rattle.std.specs.Option.{option_to_list};
ghost use Rattle.rules.specs.ArrayFields.{redundant_size, pass8_at};

use rules::{Fault, Record, Target, codes};

// 38 for what was found, if it stands in the declaration.
#[tactic(auto, unfolding(rules::specs::ArrayFields::redundant_size, rules::specs::Places::found_inside))]
fn redundant_size(table: &[Record], place: usize, found: Option<usize>) -> Option<Fault>
    ensures { option_to_list result ≡ redundant_size table.now place found }
{
    let q = search::members::inside(table, found)?;
    Some(faults::fault::double(
        codes::REDUNDANT_ARRAY_SIZE,
        table::at(table, q),
        table::at(table, place),
    ))
}

// The fault of the array at `place`, if any.
#[tactic(auto, unfolding(rules::specs::ArrayFields::pass8_at))]
#[inline(never)]
pub fn at_place(table: &[Record], place: usize) -> Option<Fault>
    ensures { option_to_list result ≡ pass8_at table.now place }
{
    let r = table::at(table, place);
    if (r.kind == kinds::ARRAY) & (2 <= r.marks) {
        let found = search::first_within(table, Target::SizeOrDecl(r.name), place);
        return redundant_size(table, place, found);
    }
    None
}
