// Module 1: `bit_width` and `scalar_max`, for every value and every width of 64 bits.
#![tactic(auto)]

ghost use Rattle.std.specs.Prelude.{◌≡◌};
ghost use Rattle.rules.specs.Widths.{bit_width, scalar_max};

// Return the bit-width of a scalar value.
#[tactic(auto, using(crate::proofs::Laws::zeros))]
pub fn bit_width(value: u64) -> u64
    ensures { result ≡ bit_width value }
{
    u64::from(u64::BITS - value.leading_zeros())
}

// Return the maximum value for a scalar value.
#[tactic(auto, using(crate::proofs::Laws::shifted), unfolding(rules::specs::Widths::scalar_max))]
pub fn scalar_max(width: u64) -> u64
    ensures { result ≡ scalar_max width }
{
    if width >= 64 {
        u64::MAX
    } else {
        (1u64 << width) - 1
    }
}
