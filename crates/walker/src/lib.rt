// A walker: the table that it is lent and the current place. `kind_after` serves callers that have a slice and a number.
#![tactic(auto)]

ghost use Rattle.std.specs.Prelude.{◌≡◌, ◌+◌};
ghost use Rattle.rules.specs.Table.{at};
ghost use Rattle.walker.specs.Steps.{next_place};

use rules::Record;

#[derive(Clone, Copy)]
struct Walker<'a> {
    table: &'a [Record],
    place: usize,
}

impl<'a> Walker<'a> {
    // A walker at a place of a table.
    fn new(table: &'a [Record], place: usize) -> Self
        ensures { (result.table ≡ table.entry) × (result.place ≡ place) }
    {
        Walker { table, place }
    }

    // The kind of the record at the walker's place: 0 past the end.
    fn kind(self) -> u8
        ensures { result ≡ (at self.entry.table.now self.entry.place).kind }
    {
        table::kind(self.table, self.place)
    }

    // The walker at the next place; past the end it stays.
    #[tactic(auto, unfolding(crate::specs::Steps::next_place))]
    fn step(mut self) -> Self
        ensures { (result.table ≡ self.entry.table) × (result.place ≡ next_place self.entry.table.now self.entry.place) }
    {
        if self.place < self.table.len() {
            self.place += 1;
        }
        self
    }
}

// The kind of the record behind `place`: 0 past the end.
#[tactic(auto, using(crate::proofs::Laws::at_next))]
pub fn kind_after(table: &[Record], place: usize) -> u8
    ensures { result ≡ (at table.now (place + 1)).kind }
{
    Walker::new(table, place).step().kind()
}
