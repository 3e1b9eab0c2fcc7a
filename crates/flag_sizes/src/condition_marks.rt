// A walk through a table that marks the names which the conditions of a declaration give, so that fields of other names need no search.
ghost use Rattle.std.specs.Prelude.{◌≡◌, ◌+◌, ◌<◌, ◌≤◌, length};
ghost use Rattle.rules.specs.DesugarFlags.{entries_from};
ghost use Rattle.flag_sizes.specs.Counts.{ConditionsStamped, made_at};

use crate::conditions;
use crate::entries::Naming;
use rules::Record;
use std::marker::Model;
use table::{DIVISOR, Table};

// Stamps the remainders of the names that the conditions of a declaration give, whose end it tests for as the walk of the visits does. Its
// members start at `from`, which is the stamp: no other declaration has it.
#[tactic(auto, using(crate::proofs::Laws::entries_steps))]
fn mark_conditions(table: &[Record], from: usize, marks: &mut [u16])
    requires { (from ≤ 1600) × (4093 ≤ length marks.old) }
    ensures { ConditionsStamped table.now marks.new from }
{
    for p in from..table.len() {
        let kind = table::kind(table, p);
        if kinds::is_decl(kind) {
            return;
        }
        if kind == kinds::CONDITION {
            let h = usize::from(table::at(table, p).name % DIVISOR);
            marks[h] = from as u16;
        }
    }
}

// How many conditions name `flag`, from place `from` to the end of the declaration.
#[tactic(auto, using(crate::proofs::Laws::few_entries))]
fn count_entries(table: &[Record], flag: u16, from: usize) -> usize
    ensures { result ≡ length (entries_from table.now flag from) }
{
    Naming {
        table,
        flag,
        place: from,
    }
    .count()
}

// A place of a table, where the members of its declaration start, and the marks of the names that its conditions give. The marks are lent at a
// lifetime of their own: at the table's the borrow checker does not cover that they are lent again.
#[derive(Drop)]
pub struct ConditionMarks<'a, 'b> {
    table: Table<'a>,
    place: usize,
    members: usize,
    marks: &'b mut [u16],
}

// Contracts see the records and the place. An invariant, as a ghost field would not hold between the writes of a step.
impl<'a, 'b> Model for ConditionMarks<'a, 'b> {
    ghost use Rattle.std.specs.Prelude.{◌≡◌, ◌≤◌, ℕ, List, length};
    ghost use Rattle.rules.specs.declared.Record.{Record};
    ghost use Rattle.rules.specs.DesugarFlags.{members_start};
    ghost use Rattle.flag_sizes.specs.Counts.{ConditionsStamped};

    ghost Value = { List Record × ℕ };

    ghost view = { λ m. (m.table.records.now, m.place) };

    ghost invariant = { λ m. (m.place ≤ length m.table.records.now) × (m.members ≡ members_start m.table.records.now m.place)
        × ConditionsStamped m.table.records.now m.marks.now m.members };
}

impl<'a, 'b> ConditionMarks<'a, 'b> {
    // At the first place.
    #[tactic(auto, using(crate::proofs::Laws::start_zero))]
    pub fn new(table: Table<'a>, marks: &'b mut [u16]) -> Self
        requires { 4093 ≤ length marks.old }
        ensures { result ≡ (table.entry.records.now, 0) }
    {
        mark_conditions(table.records, 0, marks);
        ConditionMarks {
            table,
            place: 0,
            members: 0,
            marks,
        }
    }

    // How many entries are made for the record at the place.
    #[tactic(auto, using(crate::proofs::Laws::start_few))]
    pub fn count_made(&self) -> usize
        ensures { result ≡ length (made_at self.now.0 self.now.1) }
    {
        let r = table::at(self.table.records, self.place);
        // No condition of the declaration gives this name: true of most records, of whatever kind, so it is asked first.
        if self.marks[usize::from(r.name % DIVISOR)] != self.members as u16 {
            return 0;
        }
        if !kinds::is_named_field(r.kind) {
            return 0;
        }
        count_entries(self.table.records, r.name, self.members)
    }

    // Goes to the next place; if a declaration stands at this one, its conditions are marked.
    #[tactic(auto, using(crate::proofs::Laws::start_few))]
    pub fn step(&mut self)
        requires { self.old.1 < length self.old.0 }
        ensures { self.new ≡ (self.old.0, self.old.1 + 1) }
    {
        let next = conditions::next_start(self.table.records, self.place, self.members);
        if next != self.members {
            mark_conditions(self.table.records, next, self.marks);
        }
        self.members = next;
        self.place += 1;
    }
}
