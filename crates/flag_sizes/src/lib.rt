// Sizes with flags: how many entries each field gets from the conditions that name it, and how many records the table becomes.
#![tactic(auto)]

mod condition_marks;
pub mod conditions;
pub mod entries;

ghost use Rattle.std.specs.Prelude.{◌≡◌, ◌+◌, ◌-◌, ◌<◌, ◌≤◌, length};
ghost use Rattle.rules.specs.DesugarFlags.{condition_at, entries_at, desugared_at, desugared};
ghost use Rattle.flag_sizes.specs.Counts.{Counted, made_at};
ghost use Rattle.std.proofs.Props.{props};

use condition_marks::ConditionMarks;
use entries::Standing;
use rules::Record;
use table::{REMAINDERS, Table};

// A table, with how many entries each of its places gets.
#[derive(Clone, Copy)]
pub struct EntryCounts<'a> {
    pub table: Table<'a>,
    pub counts: &'a [u16],
    pub ghost counted: { Counted table.records.now counts.now (length table.records.now) } by { Prim.hlevel props },
}

impl<'a> EntryCounts<'a> {
    // Counts in the array that is lent. Beside the counts: how many records the table becomes.
    pub fn count(table: Table<'a>, counts: &'a mut [u16]) -> (Self, usize)
        requires { 1600 ≤ length counts.old }
        ensures { (result.0.table.records ≡ table.entry.records) × (result.1 ≡ length (desugared table.entry.records.now)) }
    {
        let mut marks = [0u16; REMAINDERS];
        let total = total(table, &mut marks, counts);
        (EntryCounts { table, counts }, total)
    }
}

// How many entries stand one after another from place `from` on.
#[tactic(auto, using(crate::proofs::Laws::few_own))]
fn count_own(table: &[Record], from: usize) -> usize
    ensures { result ≡ length (entries_at table.now from (length table.now - from)) }
{
    Standing { table, place: from }.count()
}

// How many conditions stand behind `place`.
#[tactic(auto, unfolding(rules::specs::DesugarFlags::condition_at, rules::specs::Choice::when))]
fn count_condition(table: &[Record], place: usize) -> usize
    ensures { result ≡ length (condition_at table.now (place + 1)) }
{
    usize::from(walker::kind_after(table, place) == kinds::CONDITION)
}

// How many records the record at `place` becomes, for which so many entries are made.
#[tactic(auto, using(crate::proofs::Laws::size_laws))]
fn size_at(table: Table, place: usize, made: usize) -> usize
    requires { (place < length table.records.now) × (made ≡ length (made_at table.records.now place)) }
    ensures { result ≡ length (desugared_at table.entry.records.now place) }
{
    if kinds::is_condition_or_entry(table::kind(table.records, place)) {
        return 0;
    }
    let c = count_condition(table.records, place);
    if made == 0 {
        let own = count_own(table.records, place + 1 + c);
        return 1 + c + own;
    }
    1 + c + made
}

// How many records the whole table becomes. The numbers of entries are kept by place, so that writing need not count again.
#[tactic(auto, using(crate::proofs::Laws::total_laws))]
pub fn total(table: Table, marks: &mut [u16], counts: &mut [u16]) -> usize
    requires { (4093 ≤ length marks.old) × (1600 ≤ length counts.old) }
    ensures { (result ≡ length (desugared table.entry.records.now)) × Counted table.entry.records.now counts.new (length table.entry.records.now) }
{
    let mut n = 0;
    let mut walk = ConditionMarks::new(table, marks);
    for p in 0..table.records.len() {
        let made = walk.count_made();
        counts[p] = made as u16;
        n += size_at(table, p, made);
        walk.step();
    }
    n
}
