// Pass 5, `check_size_fields`: repeated Size, Count and ElementSize fields.
ghost use Rattle.std.specs.Prelude.{◌≡◌, ◌≤◌};
ghost use Rattle.std.specs.Option.{option_to_list};
ghost use Rattle.rules.specs.Kinds.{size};
ghost use Rattle.rules.specs.SizeFields.{size_code, size_again};

use crate::Sizes;
use kinds::is_size;
use repeats::marks::{Compared, Marks};
use rules::{Fault, codes};

// How far the codes of Size, Count and ElementSize are apart.
const CODES_EACH: u16 = codes::DUPLICATE_COUNT_FIELD - codes::DUPLICATE_SIZE_FIELD;

// The code of a repeat, before those for missing and for no array.
pub(crate) fn size_code(kind: u8) -> u16
    requires { size ≤ kind }
    ensures { result ≡ size_code kind }
{
    codes::DUPLICATE_SIZE_FIELD + CODES_EACH * u16::from(kind - kinds::SIZE)
}

// First a repeat: 23, 26, 29. Size and Count share one map, and ElementSize has its own.
#[tactic(auto, unfolding(rules::specs::SizeFields::size_again, rules::specs::EnumDeclarations::again))]
pub fn size_again(sizes: &Sizes, place: usize) -> Option<Fault>
    ensures { option_to_list result ≡ size_again sizes.now.table.now place }
{
    let k = table::kind(sizes.table, place);
    if !is_size(k) {
        return None;
    }
    let code = size_code(k);
    if k == kinds::ELEMENT_SIZE {
        let marks = Marks {
            table: sizes.table,
            what: Compared::ElementSizes,
            marks: sizes.elements,
        };
        return marks.again(code, place);
    }
    let marks = Marks {
        table: sizes.table,
        what: Compared::Sizes,
        marks: sizes.sizes,
    };
    marks.again(code, place)
}
