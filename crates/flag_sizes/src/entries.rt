// Entries, one by one: those that the conditions which name a flag become, and those that stand already.
ghost use Rattle.std.specs.Prelude.{◌-◌, length};
ghost use Rattle.std.specs.Iterator.{YieldsFirst, item_count};
ghost use Rattle.rules.specs.DesugarFlags.{entries_at, entries_from};

use crate::conditions;
use rules::Record;

// The entries of the conditions that name `flag`, from `place` to the end of the declaration, which is tested for as in the walk of the visits.
#[derive(Clone, Copy)]
pub struct Naming<'a> {
    pub table: &'a [Record],
    pub flag: u16,
    pub place: usize,
}

impl<'a> Iterator for Naming<'a> {
    type Item = Record;

    ghost next_gives = { YieldsFirst (λ s. entries_from s.table.now s.flag s.place) };

    ghost remaining = { item_count (λ s. entries_from s.table.now s.flag s.place) };

    #[tactic(auto, using(crate::proofs::Laws::entries_steps))]
    fn next(&mut self) -> Option<Record> {
        for p in self.place..self.table.len() {
            if kinds::is_decl(table::kind(self.table, p)) {
                return None;
            }
            if conditions::is_condition_on(self.table, self.flag, p) {
                self.place = p + 1;
                return Some(conditions::entry_of(self.table, p));
            }
        }
        None
    }
}

// The entries that stand one after another from `place` on.
#[derive(Clone, Copy)]
pub struct Standing<'a> {
    pub table: &'a [Record],
    pub place: usize,
}

impl<'a> Iterator for Standing<'a> {
    type Item = Record;

    ghost next_gives = { YieldsFirst (λ s. entries_at s.table.now s.place (length s.table.now - s.place)) };

    ghost remaining = { item_count (λ s. entries_at s.table.now s.place (length s.table.now - s.place)) };

    #[tactic(auto, using(crate::proofs::Laws::own_steps))]
    fn next(&mut self) -> Option<Record> {
        let p = self.place;
        if table::kind(self.table, p) != kinds::FLAG_ENTRY {
            return None;
        }
        self.place = p + 1;
        Some(table::at(self.table, p))
    }
}
