// The records behind a declaration, up to the next one, and whether they belong to a group field.
ghost use Rattle.std.specs.Prelude.{◌≡◌, ◌+◌, ◌-◌, ◌<◌, true, length};
ghost use Rattle.std.specs.Iterator.{at_most};
ghost use Rattle.rules.specs.Table.{at};
ghost use Rattle.rules.specs.Kinds.{is_decl};
ghost use Rattle.rules.specs.InlineGroups.{after_group};
ghost use Rattle.group_sizes.specs.Members.{Step};

use rules::Record;

// A record behind a declaration.
#[derive(Clone, Copy)]
pub struct Member {
    pub place: usize,
    pub kind: u8,
    // it is a constraint or a condition of a group field
    pub bound: bool,
}

// The records from `place` on.
#[derive(Clone, Copy)]
pub struct Members<'a> {
    pub table: &'a [Record],
    pub place: usize,
    // a constraint or a condition here belongs to a group field
    pub after: bool,
    pub ghost known: { after ≡ after_group table.now place },
}

impl<'a> Members<'a> {
    // The records behind the declaration at `decl`.
    pub fn new(table: &'a [Record], decl: usize) -> Self
        requires { (decl < length table.now) × (is_decl (at table.now decl).kind ≡ true) }
        ensures { (result.table ≡ table.entry) × (result.place ≡ decl + 1) }
    {
        Members {
            table,
            place: decl + 1,
            after: false,
        }
    }
}

impl<'a> Iterator for Members<'a> {
    type Item = Member;

    ghost next_gives = { λ s r z. Step s.table.now s.place r z.table.now z.place };

    ghost remaining = { λ s. at_most (length s.table.now - s.place) };

    fn next(&mut self) -> Option<Member> {
        let place = self.place;
        let kind = table::kind(self.table, place);
        if self.table.len() <= place || kinds::is_decl(kind) {
            return None;
        }
        let bound = kinds::is_constraint_or_condition(kind) & self.after;
        *self = Members {
            table: self.table,
            place: place + 1,
            after: (kind == kinds::GROUP_FIELD) | bound,
        };
        Some(Member { place, kind, bound })
    }
}
