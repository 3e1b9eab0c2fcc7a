// Faults noted in the fault buffer.
ghost use Rattle.std.specs.Prelude.{◌≡◌, ◌+◌, ◌^◌, ◌<◌};
ghost use Rattle.std.specs.Option.{option_to_list};
ghost use Rattle.rules.specs.Faults.{log};
ghost use Rattle.faults.specs.Notes.{noted, noted_all};

use crate::fault;
use rules::limits::FAULT_LENGTH;
use rules::{Fault, Tally};

// The tally and the buffer stay two parameters: of a struct that holds the lent buffer, nothing is known of the lender's bytes at its end.

// One fault more: kept where a whole one still fits, and counted.
pub fn noted(before: Tally, buffer: &mut [u8], fault: Fault) -> Tally
    requires { before.total + 1 < 2 ^ 64 }
    ensures { log result buffer.new ≡ noted (log before buffer.old) fault }
{
    let total = before.total + 1;
    if before.kept < buffer.len() / FAULT_LENGTH {
        store::write(buffer, FAULT_LENGTH * before.kept, &fault::bytes_of(fault));
        return Tally {
            kept: before.kept + 1,
            total,
        };
    }
    Tally { total, ..before }
}

// The same, where the tally is lent and changed where it is.
pub fn note(tally: &mut Tally, buffer: &mut [u8], fault: Fault)
    requires { tally.old.total + 1 < 2 ^ 64 }
    ensures { log tally.new buffer.new ≡ noted (log tally.old buffer.old) fault }
{
    *tally = noted(*tally, buffer, fault);
}

// What was found at a place, noted.
#[tactic(auto, unfolding(crate::specs::Notes::noted_all))]
pub fn note_found(tally: Tally, buffer: &mut [u8], found: Option<Fault>) -> Tally
    requires { tally.total + 1 < 2 ^ 64 }
    ensures { log result buffer.new ≡ noted_all (log tally buffer.old) (option_to_list found) }
{
    // map_or with a closure that borrows the buffer leaves nothing known of it where nothing was found.
    match found {
        Some(f) => noted(tally, buffer, f),
        None => tally,
    }
}
