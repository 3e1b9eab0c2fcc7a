// Pass 9, `check_padding_fields`: code 39 at a padding that does not directly follow an array.
#![tactic(auto)]

ghost use Rattle.std.specs.Prelude.{◌≡◌};
ghost use Rattle.std.specs.Option.{option_to_list};
ghost use Rattle.rules.specs.PaddingFields.{not_after_array, pass9_at};

use faults::when;
use rules::{Fault, Record, Target, codes};

// 39 unless what was found is an array.
#[tactic(auto, unfolding(rules::specs::PaddingFields::not_after_array, rules::specs::Choice::when))]
fn not_after_array(table: &[Record], place: usize, found: Option<usize>) -> Option<Fault>
    ensures { option_to_list result ≡ not_after_array table.now place found }
{
    let follows_array = found.is_some_and(|q| table::kind(table, q) == kinds::ARRAY);
    when(
        !follows_array,
        faults::fault::single(codes::INVALID_PADDING_FIELD, table::at(table, place)),
    )
}

// The fault of the padding at `place`, if any.
#[tactic(auto, unfolding(rules::specs::PaddingFields::pass9_at))]
#[inline(never)]
pub fn at_place(table: &[Record], place: usize) -> Option<Fault>
    ensures { option_to_list result ≡ pass9_at table.now place }
{
    if table::kind(table, place) != kinds::PADDING {
        return None;
    }
    not_after_array(
        table,
        place,
        search::nearest(table, Target::FieldOrDecl, place),
    )
}
