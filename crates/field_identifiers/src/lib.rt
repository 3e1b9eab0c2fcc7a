// Pass 3, `check_field_identifiers`: code 11 at a field whose name an earlier field of the declaration has.
#![tactic(auto)]

ghost use Rattle.std.specs.Prelude.{◌≡◌};
ghost use Rattle.std.specs.Option.{option_to_list};
ghost use Rattle.rules.specs.Faults.{log, logged};
ghost use Rattle.rules.specs.FieldIdentifiers.{pass3_at, pass3};
ghost use Rattle.repeats.specs.declared.marks.Compared.TheVariants.{FieldNames};

use faults::notes::note_found;
use repeats::marks::Marks;
use rules::{Fault, Tally, Target, codes};

// The fault of the field at `place` if its name is repeated. The mark is asked first, and the record read behind that branch: few fields that
// repeat no name keep their mark. With mark and kind in one branch here a table of 1,599 fields took 16,000 instructions more.
#[inline]
pub fn at_place(marks: &Marks, place: usize) -> Option<Fault>
    requires { marks.now.what ≡ FieldNames }
    ensures { option_to_list result ≡ pass3_at marks.now.table.now place }
{
    if !marks.at(place) {
        return None;
    }
    let r = table::at(marks.table, place);
    if !kinds::is_named_field(r.kind) {
        return None;
    }
    // By `marks.again`, which asks what the marks compare, a table of 1,599 fields took 9,500 instructions more.
    let target = Target::NameOrDecl(r.name);
    repeats::again(
        codes::DUPLICATE_FIELD_IDENTIFIER,
        marks.table,
        target,
        place,
    )
}

// All faults of the pass, where `marks` says which fields may repeat a name.
pub fn check_field_identifiers(marks: &Marks, buffer: &mut [u8]) -> Tally
    requires { marks.now.what ≡ FieldNames }
    ensures { log result buffer.new ≡ logged buffer.old (pass3 marks.now.table.now) }
{
    let mut tally = faults::no_faults();
    for place in 0..marks.table.len() {
        tally = note_found(tally, buffer, at_place(marks, place));
    }
    tally
}
