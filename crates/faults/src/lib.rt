// The fault buffer: the first faults, as many whole ones as fit, and a total that counts all.
#![tactic(auto)]

pub mod fault;
pub mod notes;

ghost use Rattle.std.specs.Prelude.{◌≡◌};
ghost use Rattle.std.specs.Option.{option_to_list};
ghost use Rattle.rules.specs.Choice.{when};
ghost use Rattle.faults.specs.Notes.{no_faults};

use rules::{Fault, Tally};

// A fault where a test holds.
#[tactic(auto, unfolding(rules::specs::Choice::when))]
pub fn when(test: bool, fault: Fault) -> Option<Fault>
    ensures { option_to_list result ≡ when test fault }
{
    test.then_some(fault)
}

// No fault yet.
pub fn no_faults() -> Tally
    ensures { result ≡ no_faults }
{
    Tally::default()
}
