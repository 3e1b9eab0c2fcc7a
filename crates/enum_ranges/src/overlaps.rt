// Overlaps: neighbours among the sorted ranges of an enum that share a value.
ghost use Rattle.std.specs.Prelude.{◌≡◌, ◌+◌, ◌^◌, ◌<◌, ◌≤◌, length};
ghost use Rattle.std.specs.Option.{option_to_list};
ghost use Rattle.rules.specs.Faults.{log};
ghost use Rattle.rules.specs.EnumDeclarations.{overlap, overlaps};
ghost use Rattle.faults.specs.Notes.{noted_all};

use enum_bounds::range::{greater, lesser};
use faults::when;
use rules::{Fault, Record, Tally, codes};

// 41 at `right` where the ranges at `left` and `right` share a value.
#[tactic(auto, unfolding(rules::specs::EnumDeclarations::overlap))]
fn overlap(table: &[Record], left: u16, right: u16) -> Option<Fault>
    ensures { option_to_list result ≡ overlap table.now left right }
{
    let r = table::at(table, usize::from(left));
    let s = table::at(table, usize::from(right));
    when(
        (lesser(s) <= greater(r)) & (lesser(r) <= greater(s)),
        faults::fault::double(codes::DUPLICATE_TAG_RANGE, s, r),
    )
}

// 41 for each two neighbours of `places`.
pub fn note_overlaps(table: &[Record], places: &[u16], tally: Tally, buffer: &mut [u8]) -> Tally
    requires { (length places.now ≤ 1600) × (tally.total + 1601 < 2 ^ 64) }
    ensures { log result buffer.new ≡ noted_all (log tally buffer.old) (overlaps table.now places.now) }
{
    let mut kept = tally;
    for pair in places.windows(2) {
        kept = faults::notes::note_found(kept, buffer, overlap(table, pair[0], pair[1]));
    }
    kept
}
