// The table with flags, written record by record.
#![tactic(auto)]

ghost use Rattle.std.specs.Prelude.{◌≡◌, List, [], ◌∷◌, ◌<◌, length};
ghost use Rattle.std.specs.Iterator.{IsFinite, Drains, size};
ghost use Rattle.rules.specs.Bytes.{written};
ghost use Rattle.rules.specs.Table.{encode};
ghost use Rattle.rules.specs.DesugarFlags.{members_start, flag_of, condition_at, desugared_at, desugared};
ghost use Rattle.rules.specs.declared.Record.{Record};
ghost use Rattle.flag_table.specs.RecordsAppended.{RecordsAppended, Room, RoomForRecords};

use flag_sizes::EntryCounts;
use flag_sizes::conditions::next_start;
use flag_sizes::entries::{Naming, Standing};
use rules::Record;

// `r` as a Flag.
fn flag_of(r: Record) -> Record
    ensures { result ≡ flag_of r }
{
    Record {
        kind: kinds::FLAG,
        name: r.name,
        key: r.key,
        start: r.start,
        end: r.end,
        ..Record::default()
    }
}

// Writes `r` at place `count`. Buffer and count are two parameters: with a struct that holds the lent buffer, each function would have one more
// clause, that it still holds the same buffer. That there is room stays a clause: each function asks it for other records, so no type can say it once.
#[tactic(auto, using(crate::proofs::Writing::puts))]
fn append(out: &mut [u8], count: usize, r: Record) -> usize
    requires { RoomForRecords out.old count (r ∷ []) }
    ensures { RecordsAppended out.old count (r ∷ []) out.new result }
{
    store::put(out, count, r);
    count + 1
}

// Writes the records that an iterator gives, one after another.
#[tactic(auto, using(crate::proofs::Writing::puts))]
fn append_all<I: Iterator<Item = Record> + Drop>(records: I, out: &mut [u8], count: usize) -> usize
    requires can { I.can_next records }
    requires ends { IsFinite (I.remaining records) }
    requires room { Room out.old count (size (I.remaining records)) }
    ensures { (rs : List Record) × Drains I.next_gives records rs × RecordsAppended out.old count rs out.new result }
{
    let mut n = count;
    for r in records {
        n = append(out, n, r);
    }
    n
}

// Writes `r` and the condition at `place`, if one stands there.
#[tactic(auto, using(crate::proofs::Writing::puts), unfolding(rules::specs::DesugarFlags::condition_at, rules::specs::Choice::when))]
fn write_head(table: &[Record], place: usize, r: Record, out: &mut [u8], count: usize) -> usize
    requires { RoomForRecords out.old count (r ∷ condition_at table.now place) }
    ensures { RecordsAppended out.old count (r ∷ condition_at table.now place) out.new result }
{
    let n = append(out, count, r);
    let condition = table::at(table, place);
    if condition.kind == kinds::CONDITION {
        return append(out, n, condition);
    }
    n
}

// Writes what the record at `place` becomes.
#[tactic(auto, using(crate::proofs::Writing::what_becomes))]
fn write_at(
    counts: &EntryCounts,
    place: usize,
    members: usize,
    out: &mut [u8],
    count: usize,
) -> usize
    requires standing { (place < length counts.now.table.records.now) × (members ≡ members_start counts.now.table.records.now place) }
    requires room { RoomForRecords out.old count (desugared_at counts.now.table.records.now place) }
    ensures { RecordsAppended out.old count (desugared_at counts.now.table.records.now place) out.new result }
{
    let table = counts.table.records;
    if kinds::is_condition_or_entry(table::kind(table, place)) {
        return count;
    }
    let r = table::at(table, place);
    if counts.counts[place] == 0 {
        let n = write_head(table, place + 1, r, out, count);
        let standing = Standing {
            table,
            place: place + (n - count),
        };
        return append_all(standing, out, n);
    }
    let n = write_head(table, place + 1, flag_of(r), out, count);
    let naming = Naming {
        table,
        flag: r.name,
        place: members,
    };
    append_all(naming, out, n)
}

// Writes the whole table.
#[tactic(auto, using(crate::proofs::Writing::whole))]
pub fn write_all(counts: &EntryCounts, out: &mut [u8])
    requires { RoomForRecords out.old 0 (desugared counts.now.table.records.now) }
    ensures { out.new ≡ written out.old 0 (encode (desugared counts.now.table.records.now)) }
{
    let table = counts.table.records;
    let mut n = 0;
    let mut a = 0;
    for p in 0..table.len() {
        n = write_at(counts, p, a, out, n);
        a = next_start(table, p, a);
    }
}
