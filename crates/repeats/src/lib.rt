// Records that repeat an earlier one of their declaration.
#![tactic(auto)]

pub mod marks;

ghost use Rattle.std.specs.Prelude.{◌≡◌};
ghost use Rattle.std.specs.Option.{option_to_list};
ghost use Rattle.rules.specs.Table.{at};
ghost use Rattle.rules.specs.Faults.{repeated};
ghost use Rattle.rules.specs.EnumDeclarations.{again};
ghost use Rattle.repeats.specs.Marks.{compared_of, target_of};

use marks::Marks;
use rules::{Fault, Record, Target};

// A fault at `place` that points at the earlier record that a search found, if it is no declaration.
#[tactic(auto, unfolding(rules::specs::Faults::repeated, rules::specs::Places::found_inside))]
fn repeated(code: u16, table: &[Record], place: usize, found: Option<usize>) -> Option<Fault>
    ensures { option_to_list result ≡ repeated code table.now place found }
{
    let q = search::members::inside(table, found)?;
    Some(faults::fault::double(code, table::at(table, place), table::at(table, q)))
}

// A fault at `place` that points at the nearest earlier record of its declaration that is what `target` looks for.
#[tactic(auto, unfolding(rules::specs::EnumDeclarations::again))]
pub fn again(code: u16, table: &[Record], target: Target, place: usize) -> Option<Fault>
    ensures { option_to_list result ≡ again code table.now target place }
{
    repeated(code, table, place, search::nearest(table, target, place))
}

impl Marks<'_> {
    // As `again`, for what is compared of the record at `place`, without a search where the mark is false.
    pub fn again(&self, code: u16, place: usize) -> Option<Fault>
        ensures { option_to_list result
            ≡ again code self.now.table.now (target_of self.now.what (compared_of self.now.what (at self.now.table.now place))) place }
    {
        if !self.at(place) {
            return None;
        }
        let target = self.what.target(&table::at(self.table, place));
        again(code, self.table, target, place)
    }
}
