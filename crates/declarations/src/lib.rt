// Declarations found by their names. An array says where the search for a name may start.
#![tactic(auto)]

pub mod starts;

ghost use Rattle.std.specs.Prelude.{◌≡◌, ◌%◌, ◌≤◌, get_or, length, replicate};
ghost use Rattle.rules.specs.Table.{at};
ghost use Rattle.rules.specs.Places.{nearest, holds_at, decl_named};
ghost use Rattle.rules.specs.declared.Target.TheVariants.{DeclNamed};
ghost use Rattle.declarations.specs.Starts.{Starts};
ghost use Rattle.std.proofs.Props.{props};

use rules::{Record, Target};
use table::{DIVISOR, Table};

// A table, with places where the searches for the names of its declarations may start, by the remainders of the names.
#[derive(Clone, Copy)]
pub struct Names<'a> {
    pub table: &'a [Record],
    pub starts: &'a [u16],
    pub ghost known: { Starts table.now starts.now } by { Prim.hlevel props },
}

impl<'a> Names<'a> {
    // Without starts: every search starts at place 0.
    pub fn new(table: &'a [Record]) -> Self
        ensures { result.table ≡ table.entry }
    {
        Names { table, starts: &[] }
    }

    // With starts, which it fills. They are lent: an Option of the array, made where the table is large, would be cleared where it is not.
    pub fn with_starts(table: Table<'a>, starts: &'a mut [u16]) -> Self
        requires { starts.old ≡ replicate 4093 65535 }
        ensures { result.table ≡ table.entry.records }
    {
        starts::fill(table, starts);
        let table = table.records;
        Names { table, starts }
    }

    // The start for a name: place 0 where none is known.
    fn start(&self, name: u16) -> usize
        ensures { result ≡ get_or self.now.starts.now (name % 4093) 0 }
    {
        let h = usize::from(name % DIVISOR);
        self.starts.get(h).map_or(0, |s| usize::from(*s))
    }

    // The declaration of a name.
    pub fn decl_named(&self, name: u16) -> Option<usize>
        ensures { result ≡ decl_named self.now.table.now name }
    {
        search::first(self.table, Target::DeclNamed(name), self.start(name))
    }

    // The nearest declaration before `place` that has the name of the record at `place`.
    pub fn earlier(&self, place: usize) -> Option<usize>
        ensures { result ≡ nearest (holds_at self.now.table.now (DeclNamed (at self.now.table.now place).name)) place }
    {
        let name = table::at(self.table, place).name;
        if (self.start(name) == place) & (place < self.table.len()) {
            return None;
        }
        search::nearest(self.table, Target::DeclNamed(name), place)
    }
}
