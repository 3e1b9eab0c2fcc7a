// Where pass 5's search for what a Size, Count or ElementSize names may start, so that few records are looked at.
ghost use Rattle.std.specs.Prelude.{◌≡◌, ◌+◌, ◌<◌, ◌≤◌, true, length};
ghost use Rattle.rules.specs.Kinds.{is_decl};
ghost use Rattle.rules.specs.Table.{at};
ghost use Rattle.size_fields.specs.SizeStarts.{SizeStarts, name_of, start_for, KeptPlaces};

use kinds::{is_decl, is_size};
use rules::Record;
use table::{BODY_NAME, DIVISOR, NO_PLACE, PAYLOAD_NAME, REMAINDERS, Table};

// The only name by which a size can mean the record.
fn name_of(r: &Record) -> u16
    ensures { result ≡ name_of r.now }
{
    match r.kind {
        kinds::PAYLOAD => PAYLOAD_NAME,
        kinds::BODY => BODY_NAME,
        _ => r.name,
    }
}

// The places kept for the searches from a place on: by the remainder of a name the first that it may mean, and the next declaration.
#[derive(Drop)]
struct Kept {
    last: [u16; REMAINDERS],
    end: usize,
}

impl Kept {
    // The start for a name.
    fn start_for(&self, name: u16) -> u16
        requires { self.now.end ≤ 1600 }
        ensures { result ≡ start_for self.now.last self.now.end name }
    {
        self.last[usize::from(name % DIVISOR)].min(self.end as u16)
    }

    // The starts for the sizes of the declaration at `decl`, up to the next one.
    fn set_starts(&self, table: Table, decl: usize, starts: &mut [u16])
        requires { (1600 ≤ length starts.old) × (is_decl (at table.records.now decl).kind ≡ true)
            × KeptPlaces table.records.now self.now.last self.now.end (decl + 1) × SizeStarts table.records.now starts.old }
        ensures { SizeStarts table.entry.records.now starts.new }
    {
        for q in decl + 1..self.end {
            let r = &table.records[q];
            if is_size(r.kind) {
                starts[q] = self.start_for(r.second);
            }
        }
    }

    // One place more.
    #[tactic(auto, unfolding(rules::specs::Table::at))]
    fn step(&mut self, table: Table, place: usize, starts: &mut [u16])
        requires { (place < length table.records.now) × (1600 ≤ length starts.old)
            × KeptPlaces table.records.now self.old.last self.old.end (place + 1) × SizeStarts table.records.now starts.old }
        ensures { SizeStarts table.entry.records.now starts.new × KeptPlaces table.entry.records.now self.new.last self.new.end place }
    {
        let r = &table.records[place];
        if is_decl(r.kind) {
            self.set_starts(table, place, starts);
            self.end = place;
        } else {
            self.last[usize::from(name_of(r) % DIVISOR)] = place as u16;
        }
    }
}

// Fills `starts`, in which no start is known at first: all places of the table, from the last to the first. What is known of them stands in
// clauses: with a struct that holds them by &mut, each method would have one more, that it still holds the same slice.
#[tactic(auto, using(crate::proofs::starts::Laws::kept_none))]
pub fn fill(table: Table, starts: &mut [u16])
    requires { (1600 ≤ length starts.old) × SizeStarts table.records.now starts.old }
    ensures { SizeStarts table.entry.records.now starts.new }
{
    let n = table.records.len();
    let mut kept = Kept {
        last: [NO_PLACE; REMAINDERS],
        end: n,
    };
    for place in (0..n).rev() {
        kept.step(table, place, starts);
    }
}
