// Flags: a named field that a condition of its declaration names becomes a Flag with its entries.
#![tactic(auto)]

ghost use Rattle.std.specs.Prelude.{◌≡◌, List, ℕ, length};
ghost use Rattle.rules.specs.DesugarFlags.{loose_at, first_loose, desugared};
ghost use Rattle.rules.specs.Replies.{answered, fitted, flagged};

use flag_sizes::EntryCounts;
use flag_sizes::conditions::place_before;
use rules::limits::{MOST_RECORDS, RECORD_LENGTH};
use rules::{FieldKey, Record, Reply};
use table::Table;

// Whether a condition without a named field or without a value stands at `place`.
fn loose_at(table: &[Record], place: usize) -> bool
    ensures { result ≡ loose_at table.now place }
{
    if table::kind(table, place) != kinds::CONDITION {
        return false;
    }
    let condition = table::at(table, place);
    let field = table::kind(table, place_before(place));
    let named = kinds::is_named_field(field);
    let valued = condition.marks % 2 == 1;
    !(named & valued)
}

// The first such condition.
fn find_loose(table: &[Record]) -> Option<usize>
    ensures { result ≡ first_loose table.now }
{
    (0..table.len()).find(|p| loose_at(table, *p))
}

// The table with flags, if it is not too long for the reply or for the buffer.
#[tactic(auto, unfolding(rules::specs::Replies::fitted))]
fn fitted(counts: &EntryCounts, total: usize, out: &mut [u8]) -> Reply
    requires { total ≡ length (desugared counts.now.table.records.now) }
    ensures { (f : List ℕ) → answered result out.new f ≡ fitted (desugared counts.now.table.records.now) out.old f }
{
    if MOST_RECORDS < total {
        return Reply::Overlisted;
    }
    let needed = RECORD_LENGTH * total;
    if out.len() < needed {
        return Reply::NoRoom(needed);
    }
    flag_table::write_all(counts, out);
    Reply::Accepted(total)
}

// Makes the flags of an inlined table: the rows from Loose on. Only an accepted table is written.
#[tactic(auto, unfolding(rules::specs::Replies::by_loose))]
pub fn desugar_flags(table: Table, out: &mut [u8]) -> Reply
    ensures { (f : List ℕ) → answered result out.new f ≡ flagged table.entry.records.now out.old f }
{
    match find_loose(table.records) {
        Some(q) => {
            let field = table::at(table.records, place_before(q));
            Reply::Loose(FieldKey(field.key))
        }
        None => {
            let mut counts = [0u16; MOST_RECORDS];
            let (counts, total) = EntryCounts::count(table, &mut counts);
            fitted(&counts, total, out)
        }
    }
}
