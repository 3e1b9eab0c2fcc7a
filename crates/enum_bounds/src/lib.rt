// The bounds of ranges, kept as numbers, so that a value is held against them without a read of the table.
#![tactic(auto)]

pub mod range;

ghost use Rattle.std.specs.Prelude.{◌≡◌, ◌≤◌, leb, length, take, count_by};
ghost use Rattle.std.specs.List.Sorted.{IsNonDecreasing};
ghost use Rattle.enum_bounds.specs.Bounds.{holders, lows_of, highs_of};

use range::{greater, lesser};
use rules::Record;

// The bounds of the ranges at the places of `places`.
pub fn fill(table: &[Record], places: &[u16], lows: &mut [u64], highs: &mut [u64])
    requires { (length places.now ≤ length lows.old) × (length places.now ≤ length highs.old) }
    ensures { (take (length places.now) lows.new ≡ lows_of table.now places.now) × (take (length places.now) highs.new ≡ highs_of table.now places.now) }
{
    for (j, place) in places.iter().enumerate() {
        let r = table::at(table, usize::from(*place));
        lows[j] = lesser(r);
        highs[j] = greater(r);
    }
}

// The bounds of ranges, the lesser ones in order. They are kept apart, as each is scanned by itself.
#[derive(Clone, Copy)]
pub struct RangeBounds<'a> {
    pub lows: &'a [u64],
    pub highs: &'a [u64],
    ghost ascending: { IsNonDecreasing lows.now },
    ghost paired: { length lows.now ≡ length highs.now },
}

// How many of `numbers` are at least `value`. Adding each test compiles to no branch, where `filter` and `count` take one for each number.
fn at_least(numbers: &[u64], value: u64) -> usize
    ensures { result ≡ count_by (λ x. leb value x) numbers.now }
{
    let mut count = 0;
    for x in numbers {
        count += usize::from(value <= *x);
    }
    count
}

// How many ranges hold `value`: none behind those whose lesser bound is at most `value` does.
pub fn holders(bounds: &RangeBounds, value: u64) -> usize
    ensures { (result ≡ holders value bounds.now.lows.now bounds.now.highs.now) × (result ≤ length bounds.now.highs.now) }
{
    let k = bounds.lows.partition_point(|low| *low <= value);
    at_least(&bounds.highs[..k], value)
}
