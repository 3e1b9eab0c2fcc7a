// Pass 5, `check_size_fields`: Size, Count and ElementSize fields that name no array.
ghost use Rattle.std.specs.Prelude.{◌≡◌, ◌+◌, ◌<◌};
ghost use Rattle.std.specs.Option.{option_to_list};
ghost use Rattle.rules.specs.SizeFields.{matching, is_sized, misnamed, size_target};

use crate::Sizes;
use crate::duplicates::size_code;
use crate::matches::first_match;
use faults::when;
use kinds::is_size;
use rules::{Fault, Record, Target, codes};

// For Size a Payload also matches 1 and a Body 2.
fn matching(kind: u8, name: u16) -> Target
    ensures { result ≡ matching kind name }
{
    if kind == kinds::SIZE {
        return Target::SizedOrDecl(name);
    }
    Target::NameOrDecl(name)
}

fn is_sized(kind: u8) -> bool
    ensures { result ≡ is_sized kind }
{
    kinds::is_payload(kind) | (kind == kinds::ARRAY)
}

// How far the codes for missing and for no array are behind that of a repeat.
const MISSING: u16 = codes::UNDECLARED_SIZE_IDENTIFIER - codes::DUPLICATE_SIZE_FIELD;

const NO_ARRAY: u16 = codes::INVALID_SIZE_IDENTIFIER - codes::DUPLICATE_SIZE_FIELD;

// Missing, or the first match no array.
#[tactic(auto, unfolding(rules::specs::SizeFields::misnamed, rules::specs::Places::found_inside, rules::specs::Choice::when))]
fn misnamed(code: u16, table: &[Record], place: usize, found: Option<usize>) -> Option<Fault>
    requires { code + 2 < 65536 }
    ensures { option_to_list result ≡ misnamed code table.now place found }
{
    let r = table::at(table, place);
    let Some(q) = search::members::inside(table, found) else {
        return Some(faults::fault::single(code + MISSING, r));
    };
    let s = table::at(table, q);
    when(
        !is_sized(s.kind),
        faults::fault::double(code + NO_ARRAY, r, s),
    )
}

// Then missing 24, 27, 30, or no array 25, 28, 31.
#[tactic(auto, unfolding(rules::specs::SizeFields::size_target))]
pub fn size_target(sizes: &Sizes, place: usize) -> Option<Fault>
    ensures { option_to_list result ≡ size_target sizes.now.table.now place }
{
    let r = table::at(sizes.table, place);
    if !is_size(r.kind) {
        return None;
    }
    let found = first_match(sizes, matching(r.kind, r.second), place);
    misnamed(size_code(r.kind), sizes.table, place, found)
}
