// Marks of the names that children with a field give for their parent, by the remainders of the names.
ghost use Rattle.std.specs.Prelude.{◌≡◌, length};
ghost use Rattle.payload_fields.specs.Parents.{Parents};
ghost use Rattle.std.proofs.Props.{props};

use rules::{Record, Target};
use search::members::has_member;
use table::DIVISOR;

// Marks the parents' names of the declarations that have a field, so that other declarations need no search for a child.
pub fn mark_parents(table: &[Record], parents: &mut [bool])
    requires { length parents.old ≡ 4093 }
    ensures { Parents table.now parents.new }
{
    for (child, r) in table.iter().enumerate() {
        if kinds::is_packet_or_struct(r.kind) && has_member(table, Target::FieldOrDecl, child) {
            parents[usize::from(r.second % DIVISOR)] = true;
        }
    }
}

// A table, with marks of the names that a child with a field may give for its parent.
#[derive(Clone, Copy)]
pub struct ParentMarks<'a> {
    pub table: &'a [Record],
    pub marks: &'a [bool],
    pub ghost known: { Parents table.now marks.now } by { Prim.hlevel props },
}

impl<'a> ParentMarks<'a> {
    // Without marks: any name may be given.
    pub fn new(table: &'a [Record]) -> Self
        ensures { result.table ≡ table.entry }
    {
        ParentMarks { table, marks: &[] }
    }

    // With marks, which it sets. They are lent: an Option of the array, made where the table is large, would be cleared where it is not.
    pub fn with_marks(table: &'a [Record], marks: &'a mut [bool]) -> Self
        requires { length marks.old ≡ 4093 }
        ensures { result.table ≡ table.entry }
    {
        mark_parents(table, marks);
        ParentMarks { table, marks }
    }
}
