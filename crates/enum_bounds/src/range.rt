// The bounds of one range, put in order.
ghost use Rattle.std.specs.Prelude.{◌≡◌};
ghost use Rattle.rules.specs.EnumDeclarations.{lesser, greater};

use rules::Record;

// The lesser bound.
pub fn lesser(r: Record) -> u64
    ensures { result ≡ lesser r }
{
    r.one.min(r.two)
}

// The greater bound.
pub fn greater(r: Record) -> u64
    ensures { result ≡ greater r }
{
    r.one.max(r.two)
}
