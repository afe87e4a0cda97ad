// The operations that the crate ieee754 defines, on f64, under the names of the math module that the port follows. Every
// call is total, and its contract is an equation with the definition of the operation in ieee754's specs/Operations.antt.
#![tactic(auto)]

ghost use Rattle.std.specs.Prelude.{◌≡◌};
ghost use Rattle.std.specs.Float.Ieee.{to_bits, of_bits};
ghost use Rattle.std.specs.Float.{binary64};
ghost use Rattle.rounding.specs.declared.Direction.TheVariants.{Nearest, Down};
ghost use Rattle.ieee754.specs.Operations.{fused_multiply_add, round_to_integral};

use operands::NAN;
use rounding::{INFINITY, SIGN};

// The pattern of x. The language's own conversions are undefined at a NaN, so that is tested for first.
#[tactic(auto, using(crate::proofs::Floats::a_nan))]
pub fn to_bits(x: f64) -> u64
    ensures { result ≡ to_bits binary64 x }
{
    if x.is_nan() { NAN } else { f64::to_bits(x) }
}

// The float of a pattern.
pub fn from_bits(b: u64) -> f64
    ensures { result ≡ of_bits binary64 b }
{
    if INFINITY < b % SIGN {
        f64::NAN
    } else {
        f64::from_bits(b)
    }
}

// The pattern that is read as x.
pub fn pattern(x: f64) -> u64
    ensures { of_bits binary64 result ≡ x }
{
    to_bits(x)
}

// x * y + z, rounded once to nearest.
pub fn fma(x: f64, y: f64, z: f64) -> f64
    ensures { result ≡ fused_multiply_add Nearest x y z }
{
    from_bits(fma_bits(pattern(x), pattern(y), pattern(z)))
}

// fma on patterns: a chain of them converts nothing between its steps.
#[tactic(auto, using(crate::proofs::Floats::fused_read))]
pub fn fma_bits(x: u64, y: u64, z: u64) -> u64
    ensures { of_bits binary64 result ≡ fused_multiply_add Nearest (of_bits binary64 x) (of_bits binary64 y) (of_bits binary64 z) }
{
    fast_fused::fused(x, y, z)
}

const SHIFT: f64 = 6755399441055744.0; // 0x1.8p52

const TWO_50: f64 = 1125899906842624.0; // 0x1p50

const MINUS_TWO_50: f64 = -1125899906842624.0;

// The nearest whole number, a tie to the even one.
pub fn roundeven(x: f64) -> f64
    ensures { result ≡ round_to_integral Nearest x }
{
    // For |x| <= 2^50 the sum is rounded to a whole number. A zero would come back without the sign of x.
    let r = x + SHIFT - SHIFT;
    if MINUS_TWO_50 <= x && x <= TWO_50 && r != 0.0 {
        r
    } else {
        from_bits(integral::round(to_bits(x)))
    }
}

// The greatest whole number not above x.
#[tactic(auto, using(crate::proofs::Floats::floor_floats))]
pub fn floor(x: f64) -> f64
    ensures { result ≡ round_to_integral Down x }
{
    from_bits(integral::floor(to_bits(x)))
}
