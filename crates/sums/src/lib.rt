// The sum of two floats as patterns, rounded to nearest; where it is a NaN, the one that fused multiply-add gives.
#![tactic(auto)]

ghost use Rattle.std.specs.Prelude.{◌≡◌};
ghost use Rattle.sums.specs.Sum.{sum_bits};

// The pattern of 1.0.
const ONE: u64 = 0x3ff0000000000000;

pub fn sum(a: u64, b: u64) -> u64
    ensures { result ≡ sum_bits a b }
{
    let s = math::from_bits(a) + math::from_bits(b);
    if s.is_nan() {
        return multiply_add::fused_nearest(a, ONE, b);
    }
    math::to_bits(s)
}
