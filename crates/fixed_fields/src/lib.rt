// Pass 6, `check_fixed_fields`: fixed values wider than their field, and fixed tags that no enum has.
#![tactic(auto)]

ghost use Rattle.std.specs.Prelude.{◌≡◌};
ghost use Rattle.std.specs.Option.{option_to_list};
ghost use Rattle.rules.specs.FixedFields.{enum_fault, pass6_at};

use declarations::Names;
use faults::when;
use rules::{Fault, Record, Target, codes};
use search::members::has_member;

// 33, 34, 35 for a missing enum, a missing tag, no enum.
#[tactic(auto, unfolding(rules::specs::FixedFields::enum_fault, rules::specs::Choice::when))]
fn enum_fault(table: &[Record], place: usize, found: Option<usize>) -> Option<Fault>
    ensures { option_to_list result ≡ enum_fault table.now place found }
{
    let r = table::at(table, place);
    let Some(d) = found else {
        return Some(faults::fault::single(codes::E33, r));
    };
    let e = table::at(table, d);
    if e.kind != kinds::ENUM {
        return Some(faults::fault::double(codes::E35, r, e));
    }
    when(
        !has_member(table, Target::OuterTagOrDecl(r.third), d),
        faults::fault::double(codes::E34, r, e),
    )
}

// The fault of the fixed field at `place`, if any.
#[tactic(auto, unfolding(rules::specs::FixedFields::pass6_at))]
#[inline(never)]
pub fn at_place(names: &Names, place: usize) -> Option<Fault>
    ensures { option_to_list result ≡ pass6_at names.now.table.now place }
{
    let r = table::at(names.table, place);
    match r.kind {
        kinds::FIXED_SCALAR => when(
            r.one < widths::bit_width(r.two),
            faults::fault::single(codes::FIXED_VALUE_OUT_OF_RANGE, r),
        ),
        kinds::FIXED_ENUM => enum_fault(names.table, place, names.decl_named(r.second)),
        _ => None,
    }
}
