// The visits of pass 2: declarations are visited depth first, what they refer to is checked, and each is listed after
// all that it follows.
#![tactic(auto)]

ghost use Rattle.std.specs.Prelude.{◌≡◌, ◌+◌, ◌-◌, ◌^◌, ◌≤◌, ◌<◌, length, take, replicate};
ghost use Rattle.rules.specs.DeclIdentifiers.{visited};
ghost use Rattle.decl_visits.specs.Contract.{started, listing, Noted, StateHeld, VisitReady, Within, Visited, Walked};

use decl_references::field_references::field_reference;
use decl_references::{own_reference, root_reference};
use declarations::Names;
use rules::limits::MOST_RECORDS;
use rules::{Record, Reference, Tally, codes};

// The marks of declarations. They stay numbers, as the rules' `State` has them: each clause would have to map an enum's.
const UNVISITED: u8 = 0;

const VISITING: u8 = 1;

const LISTED: u8 = 2;

// A mark for each place, the places listed so far with their count, as there is no heap, and the faults found.
#[derive(Clone, Copy)]
pub struct VisitProgress {
    pub marks: [u8; MOST_RECORDS],
    pub places: [u16; MOST_RECORDS],
    pub listed: usize,
    pub tally: Tally,
}

impl VisitProgress {
    // Nothing is visited yet.
    #[tactic(auto, unfolding(crate::specs::Contract::started))]
    pub fn new() -> Self
        ensures { result ≡ started }
    {
        VisitProgress {
            marks: [UNVISITED; MOST_RECORDS],
            places: [0; MOST_RECORDS],
            listed: 0,
            tally: Tally { kept: 0, total: 0 },
        }
    }

    // The places listed so far.
    pub fn order(&self) -> &[u16]
        requires { self.now.listed ≤ 1600 }
        ensures { result.now ≡ take self.now.listed self.now.places }
    {
        &self.places[..self.listed]
    }

    // One fault more, at the record at `place`.
    fn note(&mut self, table: &[Record], buffer: &mut [u8], code: u16, place: usize)
        requires { self.old.tally.total + 1 < 2 ^ 64 }
        ensures { Noted table.now self.old buffer.old code place self.new buffer.new }
    {
        let f = faults::fault::single(code, table::at(table, place));
        faults::notes::note(&mut self.tally, buffer, f);
    }

    // Lists `decl`.
    fn list(&mut self, decl: usize)
        requires { (decl < 1600) × (self.old.listed < 1600) }
        ensures { self.new ≡ listing decl self.old }
    {
        self.marks[decl] = LISTED;
        self.places[self.listed] = decl as u16;
        self.listed += 1;
    }
}

// Takes up a reference: a declaration is visited, a fault is noted.
#[cycle(visit_walk)]
fn take_up(names: &Names, reference: Reference, progress: &mut VisitProgress, buffer: &mut [u8])
    requires { Within (length names.now.table.now) reference × VisitReady names.now.table.now progress.old buffer.old 1 0 }
    ensures { Visited names.now.table.now reference progress.old buffer.old progress.new buffer.new }
{
    match reference {
        Reference::Follow(d) => visit(names, d, progress, buffer),
        Reference::Wrong(code, p) => progress.note(names.table, buffer, code, p),
        Reference::Nowhere => {}
    }
}

// Visits the declaration at `decl`: what its fields refer to, then its parent, then `decl` is listed.
#[cycle(visit_walk)]
fn visit(names: &Names, decl: usize, progress: &mut VisitProgress, buffer: &mut [u8])
    requires { (decl < length names.now.table.now) × VisitReady names.now.table.now progress.old buffer.old 1 0 }
    ensures { Visited names.now.table.now (Reference.Follow decl) progress.old buffer.old progress.new buffer.new }
{
    let m = progress.marks[decl];
    if m == UNVISITED {
        progress.marks[decl] = VISITING;
        walk(names, decl + 1, progress, buffer);
        let r = own_reference(names, decl);
        take_up(names, r, progress, buffer);
        progress.list(decl);
    } else if m == VISITING {
        progress.note(names.table, buffer, codes::RECURSIVE_DECL, decl);
    }
}

// Takes up what the fields from `place` on refer to, up to the next declaration. That end is one test here, in `flag_sizes::entries` and in
// `mark_conditions`: one iterator for the three would have a longer contract than they have.
#[cycle(visit_walk)]
fn walk(names: &Names, place: usize, progress: &mut VisitProgress, buffer: &mut [u8])
    requires { VisitReady names.now.table.now progress.old buffer.old (length names.now.table.now - place) 0 }
    ensures { Walked names.now.table.now place progress.old buffer.old progress.new buffer.new }
{
    for q in place..names.table.len() {
        let k = names.table[q].kind;
        if kinds::is_decl(k) {
            return;
        }
        if !kinds::may_refer(k) {
            continue;
        }
        let r = field_reference(names, q);
        take_up(names, r, progress, buffer);
    }
}

// Takes up what each declaration refers to, in table order; no other record does. The count and the tally begin anew, the first listed places are
// then the order, and the other places and the marks behind the table stay. The bound is a clause, as in `decl_order`: `Names` has none, for the
// passes that ask for none.
pub fn visit_all(names: &Names, progress: &mut VisitProgress, buffer: &mut [u8])
    requires { (length names.now.table.now ≤ 1600) × (take (length names.now.table.now) progress.old.marks ≡ replicate (length names.now.table.now) 0) }
    ensures { StateHeld names.now.table.now progress.old buffer.old (visited names.now.table.now) progress.new buffer.new }
{
    progress.listed = 0;
    progress.tally = Tally { kept: 0, total: 0 };
    for p in 0..names.table.len() {
        if !kinds::is_decl(names.table[p].kind) {
            continue;
        }
        let r = root_reference(names, p);
        take_up(names, r, progress, buffer);
    }
}
