// All faults of each pass but 2 and 4, place by place. A small table goes without arrays: to fill them would take longer than they spare.
#![tactic(auto)]

ghost use Rattle.std.specs.Prelude.{◌≡◌, ℕ, List, length};
ghost use Rattle.rules.specs.Places.{each};
ghost use Rattle.rules.specs.declared.Fault.{Fault};
ghost use Rattle.rules.specs.Faults.{log, logged};
ghost use Rattle.rules.specs.Scopes.{pass1};
ghost use Rattle.rules.specs.FieldIdentifiers.{pass3};
ghost use Rattle.rules.specs.SizeFields.{pass5};
ghost use Rattle.rules.specs.FixedFields.{pass6};
ghost use Rattle.rules.specs.PayloadFields.{pass7};
ghost use Rattle.rules.specs.ArrayFields.{pass8};
ghost use Rattle.rules.specs.PaddingFields.{pass9};
ghost use Rattle.pass_faults.specs.Listed.{is_among, Lists};

use declarations::Names;
use declarations::starts::large;
use faults::notes::note_found;
use payload_fields::parents::ParentMarks;
use repeats::marks::{Compared, Marks, mark};
use rules::limits::MOST_RECORDS;
use rules::{Fault, Record, Tally};
use size_fields::Sizes;
use table::{NO_PLACE, REMAINDERS, Table};

// Whether the bit of this kind is set.
#[tactic(auto, unfolding(crate::specs::Listed::is_among))]
fn is_among(kinds: u64, kind: u8) -> bool
    ensures { result ≡ is_among kinds kind }
{
    (kinds >> (kind % 64)) % 2 == 1
}

// All faults that `found_at` finds, at most two a place. It finds none where the kind of the record is not among `kinds`. What few
// places need is not inlined, so that this loop stays short.
fn run_places<F: Fn(usize) -> (Option<Fault>, Option<Fault>)>(
    table: &[Record],
    kinds: u64,
    found_at: F,
    buffer: &mut [u8],
) -> Tally
    requires { F.IsAlwaysCallable found_at }
    ensures { (listed : ℕ → List Fault) → Lists (F.post found_at) table.now kinds listed → log result buffer.new ≡ logged buffer.old (each listed (length table.now)) }
{
    let mut tally = faults::no_faults();
    for (place, r) in table.iter().enumerate() {
        if is_among(kinds, r.kind) {
            let (first, second) = found_at(place);
            tally = note_found(tally, buffer, first);
            tally = note_found(tally, buffer, second);
        }
    }
    tally
}

// The faults of declarations' names, by what is known of them.
fn scopes(names: &Names, buffer: &mut [u8]) -> Tally
    ensures { log result buffer.new ≡ logged buffer.old (pass1 names.now.table.now) }
{
    run_places(
        names.table,
        kinds::NAMED_DECLS,
        |place| (scope::at_place(names, place), None),
        buffer,
    )
}

// Pass 1.
pub fn check_scopes(table: &[Record], buffer: &mut [u8]) -> Tally
    ensures { log result buffer.new ≡ logged buffer.old (pass1 table.now) }
{
    // An Option of the array would be cleared for small tables, too: twice the instructions for one of 7 records.
    let Some(large) = large(table) else {
        return scopes(&Names::new(table), buffer);
    };
    let mut starts = [NO_PLACE; REMAINDERS];
    scopes(&Names::with_starts(large, &mut starts), buffer)
}

// Pass 3.
pub fn check_field_identifiers(table: &[Record], buffer: &mut [u8]) -> Tally
    ensures { log result buffer.new ≡ logged buffer.old (pass3 table.now) }
{
    let what = Compared::FieldNames;
    // No array for a small table, as in pass 1.
    if large(table).is_none() {
        return field_identifiers::check_field_identifiers(&Marks::new(table, what), buffer);
    }
    let mut marks = [true; MOST_RECORDS];
    mark(table, what, &mut marks);
    let marks = &marks;
    field_identifiers::check_field_identifiers(&Marks { table, what, marks }, buffer)
}

// The faults of sizes, by what is known of them, which the loop has as its own so that it is not read again at each place.
fn sizes(sizes: Sizes, buffer: &mut [u8]) -> Tally
    ensures { log result buffer.new ≡ logged buffer.old (pass5 sizes.entry.table.now) }
{
    run_places(
        sizes.table,
        kinds::SIZES,
        |place| size_fields::at_place(&sizes, place),
        buffer,
    )
}

// Pass 5 on a large table. A function of its own: in that which calls it, the arrays would be cleared for small tables, too.
#[inline(never)]
fn marked_sizes(table: Table, buffer: &mut [u8]) -> Tally
    ensures { log result buffer.new ≡ logged buffer.old (pass5 table.entry.records.now) }
{
    let mut repeated = [true; MOST_RECORDS];
    mark(table.records, Compared::Sizes, &mut repeated);
    let mut elements = [true; MOST_RECORDS];
    mark(table.records, Compared::ElementSizes, &mut elements);
    let mut starts = [NO_PLACE; MOST_RECORDS];
    size_fields::starts::fill(table, &mut starts);
    let known = Sizes {
        table: table.records,
        sizes: &repeated,
        elements: &elements,
        starts: &starts,
    };
    sizes(known, buffer)
}

// Pass 5.
pub fn check_size_fields(table: &[Record], buffer: &mut [u8]) -> Tally
    ensures { log result buffer.new ≡ logged buffer.old (pass5 table.now) }
{
    // No array for a small table, as in pass 1, nor for one without a size.
    match large(table).filter(|_| table.iter().any(|r| kinds::is_size(r.kind))) {
        Some(large) => marked_sizes(large, buffer),
        None => sizes(Sizes::new(table), buffer),
    }
}

// The faults of fixed fields, by what is known of the names.
fn fixed_values(names: &Names, buffer: &mut [u8]) -> Tally
    ensures { log result buffer.new ≡ logged buffer.old (pass6 names.now.table.now) }
{
    run_places(
        names.table,
        kinds::FIXED_FIELDS,
        |place| (fixed_fields::at_place(names, place), None),
        buffer,
    )
}

// Pass 6.
pub fn check_fixed_fields(table: &[Record], buffer: &mut [u8]) -> Tally
    ensures { log result buffer.new ≡ logged buffer.old (pass6 table.now) }
{
    // No array for a small table, as in pass 1, nor for one without an enum to look up.
    let Some(large) = large(table).filter(|_| table.iter().any(|r| r.kind == kinds::FIXED_ENUM))
    else {
        return fixed_values(&Names::new(table), buffer);
    };
    let mut starts = [NO_PLACE; REMAINDERS];
    fixed_values(&Names::with_starts(large, &mut starts), buffer)
}

// The faults of payloads, by what is known of the parents' names.
fn payloads(parents: &ParentMarks, buffer: &mut [u8]) -> Tally
    ensures { log result buffer.new ≡ logged buffer.old (pass7 parents.now.table.now) }
{
    run_places(
        parents.table,
        kinds::PAYLOADS_AND_NAMED_DECLS,
        |place| (payload_fields::at_place(parents, place), None),
        buffer,
    )
}

// Pass 7.
pub fn check_payload_fields(table: &[Record], buffer: &mut [u8]) -> Tally
    ensures { log result buffer.new ≡ logged buffer.old (pass7 table.now) }
{
    // No array for a small table, as in pass 1.
    if large(table).is_none() {
        return payloads(&ParentMarks::new(table), buffer);
    }
    let mut marks = [false; REMAINDERS];
    payloads(&ParentMarks::with_marks(table, &mut marks), buffer)
}

// Pass 8.
pub fn check_array_fields(table: &[Record], buffer: &mut [u8]) -> Tally
    ensures { log result buffer.new ≡ logged buffer.old (pass8 table.now) }
{
    run_places(
        table,
        kinds::ARRAYS,
        |place| (array_fields::at_place(table, place), None),
        buffer,
    )
}

// Pass 9.
pub fn check_padding_fields(table: &[Record], buffer: &mut [u8]) -> Tally
    ensures { log result buffer.new ≡ logged buffer.old (pass9 table.now) }
{
    run_places(
        table,
        kinds::PADDINGS,
        |place| (padding_fields::at_place(table, place), None),
        buffer,
    )
}
