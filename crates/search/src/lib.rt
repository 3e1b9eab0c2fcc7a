// Searches among the places of a table.
#![tactic(auto)]

pub mod members;
mod targets;

ghost use Rattle.std.specs.Prelude.{◌≡◌};
ghost use Rattle.rules.specs.Places.{nearest, holds_at, first_from, first_within};

use rules::{Record, Target};
use targets::holds_at;

// The searches are loops and not `find`, whose closure over the table and the target is no plainer.

// The nearest place below `place`.
pub fn nearest(table: &[Record], target: Target, place: usize) -> Option<usize>
    ensures { result ≡ nearest (holds_at table.now target) place }
{
    for q in (0..place).rev() {
        if holds_at(table, target, q) {
            return Some(q);
        }
    }
    None
}

// The first place from `from` on.
pub fn first(table: &[Record], target: Target, from: usize) -> Option<usize>
    ensures { result ≡ first_from table.now target from }
{
    for p in from..table.len() {
        if holds_at(table, target, p) {
            return Some(p);
        }
    }
    None
}

// The first place of the declaration that `place` stands in, or of what follows it.
pub fn first_within(table: &[Record], target: Target, place: usize) -> Option<usize>
    ensures { result ≡ first_within table.now target place }
{
    let decl = nearest(table, Target::Decl, place)?;
    first(table, target, decl + 1)
}
