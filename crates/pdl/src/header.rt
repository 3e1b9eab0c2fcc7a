// The numbers of the C header.
ghost use Rattle.std.specs.Prelude.{◌≡◌};
ghost use Rattle.rules.specs.Replies.{numbered};
ghost use Rattle.pdl.specs.Numbers.{header_numbers};

use rules::Reply;

// A reply as the header's three numbers. No From, as neither type is this crate's own.
#[tactic(auto, unfolding(crate::specs::Numbers::header_numbers, rules::specs::Replies::numbered))]
pub fn header_numbers(reply: Reply) -> [u64; 3]
    ensures { result ≡ header_numbers (numbered reply) }
{
    match reply {
        Reply::Uneven => [1, 0, 0],
        Reply::TooLong => [2, 0, 0],
        Reply::Malformed(place) => [3, place as u64, 0],
        Reply::Faulty(pass, total) => [4, u64::from(pass), total as u64],
        Reply::Swollen => [5, 0, 0],
        Reply::Unfit(key) => [6, u64::from(key.0), 0],
        Reply::Loose(key) => [7, u64::from(key.0), 0],
        Reply::Overlisted => [8, 0, 0],
        Reply::NoRoom(needed) => [9, needed as u64, 0],
        Reply::Accepted(records) => [10, records as u64, 0],
    }
}
