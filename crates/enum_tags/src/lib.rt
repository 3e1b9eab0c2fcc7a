// The faults of one tag of an enum.
#![tactic(auto)]

ghost use Rattle.std.specs.Prelude.{◌≡◌, [], ◌∷◌, ◌++◌, ◌+◌, ◌^◌, ◌<◌, ◌≤◌};
ghost use Rattle.std.specs.Option.{option_to_list};
ghost use Rattle.rules.specs.Table.{at};
ghost use Rattle.rules.specs.Places.{each};
ghost use Rattle.rules.specs.Faults.{log};
ghost use Rattle.rules.specs.declared.Target.TheVariants.{TagOrDecl};
ghost use Rattle.rules.specs.EnumDeclarations.{again, range_found, value_faults, held, range_faults, default_faults, inner_faults, tag_faults};
ghost use Rattle.faults.specs.Notes.{noted_all};
ghost use Rattle.repeats.specs.Marks.{Marked};
ghost use Rattle.repeats.specs.declared.marks.Compared.TheVariants.{TagNames, TagValues};
ghost use Rattle.enum_bounds.specs.Bounds.{Bounds};
ghost use Rattle.enum_tags.specs.Before.{range_before};
ghost use Rattle.std.proofs.Props.{props};

use enum_bounds::range::{greater, lesser};
use enum_bounds::{RangeBounds, holders};
use faults::when;
use repeats::again;
use repeats::marks::{Compared, Marks};
use rules::{Fault, Record, Tally, Target, codes};

// A table, with marks of the tags that may repeat an earlier name or value of their enum.
#[derive(Clone, Copy)]
pub struct MarkedTags<'a> {
    pub table: &'a [Record],
    pub names: &'a [bool],
    pub values: &'a [bool],
    pub ghost names_marked: { Marked table.now TagNames names.now } by { Prim.hlevel props },
    pub ghost values_marked: { Marked table.now TagValues values.now } by { Prim.hlevel props },
}

// The tags of the enum at `decl`, which has `count` of them, with the bounds of its ranges.
#[derive(Clone, Copy)]
pub struct EnumTags<'a, 'b> {
    pub marked: MarkedTags<'a>,
    pub decl: usize,
    pub count: usize,
    pub bounds: RangeBounds<'b>,
    pub ghost few: { count ≤ 1600 },
    pub ghost bounded: { Bounds marked.table.now decl count bounds.lows.now bounds.highs.now } by { Prim.hlevel props },
}

// A place among the tags of an enum. No range stands from `after` up to it, so a search back for the nearest one starts at `after`.
#[derive(Clone, Copy)]
pub struct TagPlace<'a> {
    pub tags: &'a EnumTags<'a, 'a>,
    pub place: usize,
    pub after: usize,
    pub ghost none_between: { range_before tags.now.marked.table.now place ≡ range_before tags.now.marked.table.now after },
}

impl<'a> TagPlace<'a> {
    // The first tag.
    pub fn first(tags: &'a EnumTags<'a, 'a>) -> Self
        requires { tags.now.decl < 1600 }
        ensures { (result.tags ≡ tags.entry) × (result.place ≡ tags.now.decl + 1) }
    {
        let place = tags.decl + 1;
        TagPlace {
            tags,
            place,
            after: place,
        }
    }

    // The next one.
    #[tactic(auto, unfolding(rules::specs::Places::nearest))]
    pub fn next(self) -> Self
        requires { self.place < 1600 }
        ensures { (result.tags ≡ self.entry.tags) × (result.place ≡ self.entry.place + 1) }
    {
        let tags = self.tags;
        let behind = self.place + 1;
        let is_range = table::kind(tags.marked.table, self.place) == kinds::TAG_RANGE;
        TagPlace {
            tags,
            place: behind,
            after: if is_range { behind } else { self.after },
        }
    }
}

// The range that a search found.
#[tactic(auto, unfolding(rules::specs::EnumDeclarations::range_found))]
fn range_found(table: &[Record], found: Option<usize>) -> Record
    ensures { result ≡ range_found table.now found }
{
    match found {
        Some(q) => table::at(table, q),
        None => Record::default(),
    }
}

// Three findings, one after the other. The bounds on the tally stay clauses, as each function finds another number of faults.
fn note_three(
    tally: Tally,
    buffer: &mut [u8],
    first: Option<Fault>,
    second: Option<Fault>,
    third: Option<Fault>,
) -> Tally
    requires { tally.total + 4 < 2 ^ 64 }
    ensures { log result buffer.new ≡ noted_all (log tally buffer.old) (option_to_list first ++ option_to_list second ++ option_to_list third) }
{
    let a = faults::notes::note_found(tally, buffer, first);
    let b = faults::notes::note_found(a, buffer, second);
    faults::notes::note_found(b, buffer, third)
}

// 12 where the name of the tag at `place` is that of an earlier tag.
fn name_again(marked: &MarkedTags, place: usize) -> Option<Fault>
    ensures { option_to_list result ≡ again 12 marked.now.table.now (TagOrDecl (at marked.now.table.now place).name) place }
{
    let names = Marks {
        table: marked.table,
        what: Compared::TagNames,
        marks: marked.names,
    };
    names.again(codes::DUPLICATE_TAG_IDENTIFIER, place)
}

// A value within bounds: 12, 13, 14.
#[tactic(auto, unfolding(rules::specs::EnumDeclarations::value_faults))]
fn note_value(
    marked: &MarkedTags,
    low: u64,
    high: u64,
    place: usize,
    tally: Tally,
    buffer: &mut [u8],
) -> Tally
    requires { tally.total + 4 < 2 ^ 64 }
    ensures { log result buffer.new ≡ noted_all (log tally buffer.old) (value_faults marked.now.table.now low high place) }
{
    let r = table::at(marked.table, place);
    let v = r.one;
    let x = name_again(marked, place);
    let values = Marks {
        table: marked.table,
        what: Compared::TagValues,
        marks: marked.values,
    };
    let y = values.again(codes::DUPLICATE_TAG_VALUE, place);
    let z = when(
        (v < low) | (high < v),
        faults::fault::single(codes::INVALID_TAG_VALUE, r),
    );
    note_three(tally, buffer, x, y, z)
}

// The same fault several times.
fn note_times(fault: Fault, times: usize, tally: Tally, buffer: &mut [u8]) -> Tally
    requires { (times ≤ 1600) × (tally.total + 1601 < 2 ^ 64) }
    ensures { log result buffer.new ≡ noted_all (log tally buffer.old) (each (λ _. fault ∷ []) times) }
{
    let mut kept = tally;
    for _ in 0..times {
        kept = faults::notes::note_found(kept, buffer, Some(fault));
    }
    kept
}

// 43 for each range of the enum that holds the value at `place`.
fn note_held(tags: &EnumTags, place: usize, tally: Tally, buffer: &mut [u8]) -> Tally
    requires { tally.total + 1601 < 2 ^ 64 }
    ensures { log result buffer.new ≡ noted_all (log tally buffer.old) (held tags.now.marked.table.now tags.now.decl tags.now.count place) }
{
    let r = table::at(tags.marked.table, place);
    let count = holders(&tags.bounds, r.one);
    note_times(faults::fault::single(codes::E43, r), count, tally, buffer)
}

// A range: 12, 40, 40.
#[tactic(auto, unfolding(rules::specs::EnumDeclarations::range_faults))]
fn note_range(
    marked: &MarkedTags,
    most: u64,
    place: usize,
    tally: Tally,
    buffer: &mut [u8],
) -> Tally
    requires { tally.total + 4 < 2 ^ 64 }
    ensures { log result buffer.new ≡ noted_all (log tally buffer.old) (range_faults marked.now.table.now most place) }
{
    let r = table::at(marked.table, place);
    let low = r.one;
    let high = r.two;
    let x = name_again(marked, place);
    let f = faults::fault::single(codes::INVALID_TAG_RANGE, r);
    let y = when((most < low) | (most < high), f);
    let z = when(high <= low, f);
    note_three(tally, buffer, x, y, z)
}

// A default tag: 12, 44.
#[tactic(auto, unfolding(rules::specs::EnumDeclarations::default_faults))]
fn note_default(marked: &MarkedTags, place: usize, tally: Tally, buffer: &mut [u8]) -> Tally
    requires { tally.total + 4 < 2 ^ 64 }
    ensures { log result buffer.new ≡ noted_all (log tally buffer.old) (default_faults marked.now.table.now place) }
{
    let x = name_again(marked, place);
    let y = again(
        codes::DUPLICATE_DEFAULT_TAG,
        marked.table,
        Target::DefaultOrDecl,
        place,
    );
    note_three(tally, buffer, x, y, None)
}

// A value in a range, against the range: no 43.
#[tactic(auto, unfolding(rules::specs::EnumDeclarations::inner_faults))]
fn note_inner(tag: TagPlace, tally: Tally, buffer: &mut [u8]) -> Tally
    requires { tally.total + 4 < 2 ^ 64 }
    ensures { log result buffer.new ≡ noted_all (log tally buffer.old) (inner_faults tag.entry.tags.now.marked.table.now tag.entry.place) }
{
    let marked = &tag.tags.marked;
    let r = range_found(
        marked.table,
        search::nearest(marked.table, Target::Range, tag.after),
    );
    note_value(marked, lesser(r), greater(r), tag.place, tally, buffer)
}

// The tag at a place of an enum.
#[tactic(auto, unfolding(rules::specs::EnumDeclarations::tag_faults))]
pub fn note_tag(tag: TagPlace, tally: Tally, buffer: &mut [u8]) -> Tally
    requires { tally.total + 1604 < 2 ^ 64 }
    ensures { log result buffer.new ≡ noted_all (log tally buffer.old)
        (tag_faults tag.entry.tags.now.marked.table.now tag.entry.tags.now.decl tag.entry.tags.now.count tag.entry.place) }
{
    let tags = tag.tags;
    let place = tag.place;
    let marked = &tags.marked;
    let most = widths::scalar_max(table::at(marked.table, tags.decl).one);
    match table::kind(marked.table, place) {
        kinds::TAG_VALUE => {
            let kept = note_value(marked, 0, most, place, tally, buffer);
            note_held(tags, place, kept, buffer)
        }
        kinds::TAG_RANGE => note_range(marked, most, place, tally, buffer),
        kinds::INNER_VALUE => note_inner(tag, tally, buffer),
        kinds::DEFAULT_TAG => note_default(marked, place, tally, buffer),
        _ => tally,
    }
}
