// The stack of the places of constraints.
ghost use Rattle.std.specs.Prelude.{◌≡◌, ◌+◌, ◌≤◌, List, ℕ, [], ◌++◌, length, take};
ghost use Rattle.group_constraints.specs.Constraints.{constraints_from};

use crate::push_constraints;
use rules::limits::MOST_RECORDS;
use std::marker::Model;
use table::Table;

// The places of the constraints that hold, the outermost first: as many as there are places in a table.
#[derive(Drop)]
pub struct Stack {
    places: [u16; MOST_RECORDS],
    len: usize,
}

impl Model for Stack {
    ghost Value = { List ℕ };

    ghost view = { λ s. take s.len s.places };

    ghost invariant = { λ s. s.len ≤ 1600 };
}

impl Stack {
    // A stack with nothing on it.
    pub fn new() -> Self
        ensures { result ≡ [] }
    {
        Stack {
            places: [0; MOST_RECORDS],
            len: 0,
        }
    }

    // How many places are on it.
    pub fn len(&self) -> usize
        ensures { result ≡ length self.now }
    {
        self.as_slice().len()
    }

    // The places, the outermost first.
    pub fn as_slice(&self) -> &[u16]
        ensures { result.now ≡ self.now }
    {
        &self.places[..self.len]
    }

    // Puts the places of the constraints of the field before `place` on the stack.
    pub fn push_constraints(&mut self, table: Table, place: usize)
        requires { length self.old + length (constraints_from table.records.now place) ≤ 1600 }
        ensures { self.new ≡ self.old ++ constraints_from table.entry.records.now place }
    {
        self.len = push_constraints(table, place, &mut self.places, self.len);
    }

    // Leaves the first `len`.
    pub fn truncate(&mut self, len: usize)
        ensures { self.new ≡ take len self.old }
    {
        self.len = self.len.min(len);
    }
}
