// Pass 5, `check_size_fields`: Size, Count and ElementSize fields that repeat a name, and those that name no array.
#![tactic(auto)]

pub mod duplicates;
mod matches;
pub mod starts;
pub mod targets;

ghost use Rattle.std.specs.Prelude.{◌≡◌};
ghost use Rattle.std.specs.Option.{option_to_list};
ghost use Rattle.rules.specs.SizeFields.{size_again, size_target};
ghost use Rattle.repeats.specs.Marks.{Marked};
ghost use Rattle.repeats.specs.declared.marks.Compared.TheVariants as compared;
ghost use Rattle.size_fields.specs.SizeStarts.{SizeStarts};
ghost use Rattle.std.proofs.Props.{props};

use duplicates::size_again;
use rules::{Fault, Record};
use targets::size_target;

// A table, with marks of the sizes that may repeat a name, and places where the searches for what they name may start.
#[derive(Clone, Copy)]
pub struct Sizes<'a> {
    pub table: &'a [Record],
    pub sizes: &'a [bool],
    pub elements: &'a [bool],
    pub starts: &'a [u16],
    pub ghost sizes_marked: { Marked table.now compared.Sizes sizes.now } by { Prim.hlevel props },
    pub ghost elements_marked: { Marked table.now compared.ElementSizes elements.now } by { Prim.hlevel props },
    pub ghost starts_known: { SizeStarts table.now starts.now } by { Prim.hlevel props },
}

impl<'a> Sizes<'a> {
    // Without marks and starts: each size may repeat a name, and every search is one within the declaration.
    pub fn new(table: &'a [Record]) -> Self
        ensures { result.table ≡ table.entry }
    {
        Sizes {
            table,
            sizes: &[],
            elements: &[],
            starts: &[],
        }
    }
}

// The faults of the record at `place`, if it is a size: that it repeats a name, and that it names no array.
pub fn at_place(sizes: &Sizes, place: usize) -> (Option<Fault>, Option<Fault>)
    ensures { (option_to_list result.0 ≡ size_again sizes.now.table.now place) × (option_to_list result.1 ≡ size_target sizes.now.table.now place) }
{
    (size_again(sizes, place), size_target(sizes, place))
}
