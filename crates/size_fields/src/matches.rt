// Pass 5's search for what a Size, Count or ElementSize names, from the start that is known for it.
ghost use Rattle.std.specs.Prelude.{◌≡◌};
ghost use Rattle.rules.specs.Places.{first_within};
ghost use Rattle.size_fields.specs.SizeStarts.{target_at};

use crate::Sizes;
use rules::Target;
use table::NO_PLACE;

// The first match of the record at `place` within its declaration, or what follows it.
pub fn first_match(sizes: &Sizes, target: Target, place: usize) -> Option<usize>
    requires { target ≡ target_at sizes.now.table.now place }
    ensures { result ≡ first_within sizes.now.table.now target place }
{
    match sizes.starts.get(place).copied().filter(|s| *s != NO_PLACE) {
        Some(s) => search::first(sizes.table, target, usize::from(s)),
        None => search::first_within(sizes.table, target, place),
    }
}
