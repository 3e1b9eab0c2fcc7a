// Marks of the records that might repeat an earlier one of their declaration, so that the others need no search.
ghost use Rattle.std.specs.Prelude.{◌≡◌, ◌≤◌, length, get_or, true};
ghost use Rattle.repeats.specs.Marks.{selects, compared_of, target_of, Marked};
ghost use Rattle.std.proofs.Props.{props};

use rules::{Record, Target};
use table::{DIVISOR, REMAINDERS, Table};

// What each record of a declaration has of its own.
#[derive(Clone, Copy)]
pub enum Compared {
    // the names of the fields
    FieldNames,
    // the names of the tags
    TagNames,
    // the values of the tags that have one
    TagValues,
    // what the Sizes and Counts name
    Sizes,
    // what the ElementSizes name
    ElementSizes,
}

// What is compared is as long as a value; names have two bytes.
const WIDE_DIVISOR: u64 = DIVISOR as u64;

impl Compared {
    // Whether records of `kind` have what is compared.
    fn selects(self, kind: u8) -> bool
        ensures { result ≡ selects self kind }
    {
        match self {
            Compared::FieldNames => kinds::is_named_field(kind),
            Compared::TagNames => kinds::is_tag(kind),
            Compared::TagValues => kinds::is_value(kind),
            Compared::Sizes => kinds::is_size_or_count(kind),
            Compared::ElementSizes => kind == kinds::ELEMENT_SIZE,
        }
    }

    // What is compared of a record.
    fn value(self, r: &Record) -> u64
        ensures { result ≡ compared_of self r.now }
    {
        match self {
            Compared::FieldNames | Compared::TagNames => u64::from(r.name),
            Compared::TagValues => r.one,
            Compared::Sizes | Compared::ElementSizes => u64::from(r.second),
        }
    }

    // What a search for an earlier record with the name or value of this one looks for.
    pub(crate) fn target(self, r: &Record) -> Target
        ensures { result ≡ target_of self (compared_of self r.now) }
    {
        match self {
            Compared::FieldNames => Target::NameOrDecl(r.name),
            Compared::TagNames => Target::TagOrDecl(r.name),
            Compared::TagValues => Target::ValueOrDecl(r.one),
            Compared::Sizes => Target::SizeOrDecl(r.second),
            Compared::ElementSizes => Target::ElementSizeOrDecl(r.second),
        }
    }
}

// Whether the record at any place may repeat an earlier one: true past the end.
pub fn mark_at(marks: &[bool], place: usize) -> bool
    ensures { result ≡ get_or marks.now place true }
{
    marks.get(place).copied().unwrap_or(true)
}

// A table, with marks of the records that may repeat what is compared of an earlier one of their declaration.
#[derive(Clone, Copy)]
pub struct Marks<'a> {
    pub table: &'a [Record],
    pub what: Compared,
    pub marks: &'a [bool],
    pub ghost known: { Marked table.now what marks.now } by { Prim.hlevel props },
}

impl<'a> Marks<'a> {
    // Without marks: each record may repeat one.
    pub fn new(table: &'a [Record], what: Compared) -> Self
        ensures { (result.table ≡ table.entry) × (result.what ≡ what) }
    {
        Marks {
            table,
            what,
            marks: &[],
        }
    }

    // Whether the record at any place may repeat an earlier one.
    pub fn at(&self, place: usize) -> bool
        ensures { result ≡ get_or self.now.marks.now place true }
    {
        mark_at(self.marks, place)
    }
}

// Each declaration has its own stamp, so that `seen` is not cleared between them. A mark becomes false where no earlier record of the
// declaration left its stamp for the same remainder.
fn mark_places(table: Table, what: Compared, seen: &mut [u16], marks: &mut [bool])
    requires { (1600 ≤ length marks.old) × (4093 ≤ length seen.old) × Marked table.records.now what marks.old }
    ensures { Marked table.entry.records.now what marks.new }
{
    let mut stamp = 0;
    for (place, r) in table.records.iter().enumerate() {
        let k = r.kind;
        if !what.selects(k) {
            // A choice of two numbers compiles to no branch; one on where declarations begin would be mispredicted often.
            stamp = if kinds::is_decl(k) {
                (place + 1) as u16
            } else {
                stamp
            };
            continue;
        }
        let h = (what.value(r) % WIDE_DIVISOR) as usize;
        if seen[h] != stamp {
            seen[h] = stamp;
            marks[place] = false;
        }
    }
}

// Clears the marks of the records that repeat none, among marks that are all true at first. A table that is too long keeps its own, and no stamps
// are cleared for it. The marks are lent, as an array that is answered would be copied by a call of memcpy.
pub fn mark(table: &[Record], what: Compared, marks: &mut [bool])
    requires { (1600 ≤ length marks.old) × Marked table.now what marks.old }
    ensures { Marked table.now what marks.new }
{
    if let Some(table) = Table::new(table) {
        let mut seen = [0u16; REMAINDERS];
        mark_places(table, what, &mut seen, marks);
    }
}
