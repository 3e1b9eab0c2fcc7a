// Pass 4, `check_enum_declarations`: the tags of each enum.
#![tactic(auto)]

ghost use Rattle.std.specs.Prelude.{◌≡◌, ◌+◌, ◌^◌, ◌<◌, ◌≤◌, length};
ghost use Rattle.std.specs.List.{list_any};
ghost use Rattle.rules.specs.Kinds.{is, enum};
ghost use Rattle.rules.specs.Faults.{log, logged};
ghost use Rattle.rules.specs.EnumDeclarations.{tags_faults, enum_faults, pass4_at, pass4};
ghost use Rattle.faults.specs.Notes.{noted_all};

use enum_bounds::RangeBounds;
use enum_tags::{EnumTags, MarkedTags, TagPlace};
use repeats::marks::{Compared, mark};
use rules::limits::MOST_RECORDS;
use rules::{Record, Tally};
use table::Table;

// Room for the places of the ranges of an enum, and for their bounds.
#[derive(Drop)]
struct Room {
    places: [u16; MOST_RECORDS],
    lows: [u64; MOST_RECORDS],
    highs: [u64; MOST_RECORDS],
}

// The tags of an enum.
fn note_tags(tags: &EnumTags, tally: Tally, buffer: &mut [u8]) -> Tally
    requires { (tags.now.decl + 1 + tags.now.count ≤ 1600) × (tally.total + 3000000 < 2 ^ 64) }
    ensures { log result buffer.new ≡ noted_all (log tally buffer.old) (tags_faults tags.now.marked.table.now tags.now.decl tags.now.count) }
{
    let mut kept = tally;
    let mut tag = TagPlace::first(tags);
    for _ in 0..tags.count {
        kept = enum_tags::note_tag(tag, kept, buffer);
        tag = tag.next();
    }
    kept
}

// The enum at `decl`, which has `count` tags: the tags, and then the ranges. 1,600 tags have at most 1,600 × 1,603 faults, and 1,600 overlaps.
fn note_enum(
    marked: &MarkedTags,
    decl: usize,
    count: usize,
    room: &mut Room,
    tally: Tally,
    buffer: &mut [u8],
) -> Tally
    requires { (decl + 1 + count ≤ 1600) × (tally.total + 4000000 < 2 ^ 64) }
    ensures { log result buffer.new ≡ noted_all (log tally buffer.old) (enum_faults marked.now.table.now decl count) }
{
    let ranges = enum_ranges::arrange(
        marked.table,
        decl,
        count,
        &mut room.places,
        &mut room.lows,
        &mut room.highs,
    );
    let bounds = RangeBounds {
        lows: &room.lows[..ranges],
        highs: &room.highs[..ranges],
    };
    let marked = *marked;
    let tags = EnumTags {
        marked,
        decl,
        count,
        bounds,
    };
    let kept = note_tags(&tags, tally, buffer);
    enum_ranges::overlaps::note_overlaps(marked.table, &room.places[..ranges], kept, buffer)
}

// What stands at `decl`, if it is an enum. The bound is a clause: `MarkedTags` has none, as `note_tag` asks for none.
#[tactic(auto, unfolding(rules::specs::EnumDeclarations::pass4_at))]
fn note_place(
    marked: &MarkedTags,
    decl: usize,
    room: &mut Room,
    tally: Tally,
    buffer: &mut [u8],
) -> Tally
    requires { (decl < length marked.now.table.now) × (length marked.now.table.now ≤ 1600) × (tally.total + 4000000 < 2 ^ 64) }
    ensures { log result buffer.new ≡ noted_all (log tally buffer.old) (pass4_at marked.now.table.now decl) }
{
    if table::kind(marked.table, decl) != kinds::ENUM {
        return tally;
    }
    let count = search::members::member_count(marked.table, decl);
    note_enum(marked, decl, count, room, tally, buffer)
}

// Whether there is an enum at all.
fn has_enum(table: &[Record]) -> bool
    ensures { result ≡ list_any (is enum) table.now }
{
    table.iter().any(|r| r.kind == kinds::ENUM)
}

// All faults of pass 4, with arrays for the longest table.
fn check_all(table: Table, buffer: &mut [u8]) -> Tally
    ensures { log result buffer.new ≡ logged buffer.old (pass4 table.entry.records.now) }
{
    let mut names = [true; MOST_RECORDS];
    mark(table.records, Compared::TagNames, &mut names);
    let mut values = [true; MOST_RECORDS];
    mark(table.records, Compared::TagValues, &mut values);
    let mut room = Room {
        places: [0; MOST_RECORDS],
        lows: [0; MOST_RECORDS],
        highs: [0; MOST_RECORDS],
    };
    let marked = MarkedTags {
        table: table.records,
        names: &names,
        values: &values,
    };
    let mut tally = faults::no_faults();
    for d in 0..marked.table.len() {
        tally = note_place(&marked, d, &mut room, tally, buffer);
    }
    tally
}

// All faults of pass 4. Without a bound on the table their number, which grows with the product of values and ranges, would not fit the
// total. Without an enum no array is cleared.
pub fn check_enum_declarations(table: Table, buffer: &mut [u8]) -> Tally
    ensures { log result buffer.new ≡ logged buffer.old (pass4 table.entry.records.now) }
{
    if !has_enum(table.records) {
        return faults::no_faults();
    }
    check_all(table, buffer)
}
