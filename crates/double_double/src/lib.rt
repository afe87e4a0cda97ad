// Double-double arithmetic: a pair hi, lo stands for the exact sum hi + lo.
//
// Each function promises the pair that the definition of its name in specs/Pairs.antt gives for the same operands.
// fast_two_sum and a_mul also promise where nothing is lost (specs/Exactness.antt). In a product lo stays a pattern until its last step.
#![tactic(auto)]

ghost use Rattle.std.specs.Prelude.{◌≡◌};
ghost use Rattle.std.specs.Float.{binary64};
ghost use Rattle.std.specs.Float.Ieee.{mul, neg};
ghost use Rattle.pair.specs.Pair.{bits};
ghost use Rattle.double_double.specs.Pairs.{fma, fast_two_sum, fast_sum, a_mul, s_mul, d_mul};
ghost use Rattle.double_double.specs.Exactness.{SumExact, ProductExact};

use dekker::dekker_error;
use operands::{field, is_middle};
use pair::Pair;

// Add a + b, assuming |a| >= |b|.
pub fn fast_two_sum(a: f64, b: f64) -> Pair
    ensures value { result ≡ fast_two_sum a b }
    ensures exact { SumExact a b result }
{
    let hi = a + b;
    let e = hi - a; // exact
    let lo = b - e; // exact
    Pair { hi, lo }
}

// Add a + (bh + bl), assuming |a| >= |bh|.
#[tactic(auto, unfolding(crate::specs::Pairs::fast_sum))]
pub fn fast_sum(a: f64, b: Pair) -> Pair
    ensures { result ≡ fast_sum a b }
{
    let s = fast_two_sum(a, b.hi);
    let lo = s.lo + b.lo;
    Pair { hi: s.hi, lo }
}

// Returns (ah + al) * (bh + bl) - (al * bl).
#[tactic(auto, using(crate::proofs::Chains::link), unfolding(crate::specs::Pairs::a_mul, crate::specs::Pairs::d_mul))]
pub fn d_mul(a: Pair, b: Pair) -> Pair
    ensures { result ≡ d_mul a b }
{
    let hi = a.hi * b.hi;
    let ah = math::pattern(a.hi);
    let bh = math::pattern(b.hi);
    let lo = error_bits(a.hi, b.hi, hi);
    let lo = math::fma_bits(ah, math::pattern(b.lo), lo);
    let lo = math::fma_bits(math::pattern(a.lo), bh, lo);
    let lo = math::from_bits(lo);
    Pair { hi, lo }
}

// Multiply a double with a double-double: a * (bh + bl).
#[tactic(auto, using(crate::proofs::Chains::link), unfolding(crate::specs::Pairs::a_mul, crate::specs::Pairs::s_mul))]
pub fn s_mul(a: f64, b: Pair) -> Pair
    ensures { result ≡ s_mul a b }
{
    let hi = a * b.hi;
    let lo = error_bits(a, b.hi, hi); // exact
    let a = math::pattern(a);
    let lo = math::fma_bits(a, math::pattern(b.lo), lo);
    let lo = math::from_bits(lo);
    Pair { hi, lo }
}

// Multiply exactly a and b, such that hi + lo = a * b.
#[tactic(auto, unfolding(crate::specs::Pairs::a_mul))]
pub fn a_mul(a: f64, b: f64) -> Pair
    ensures value { result ≡ a_mul a b }
    ensures exact { ProductExact a b result }
{
    let hi = a * b;
    let lo = error_bits(a, b, hi);
    let lo = math::from_bits(lo);
    Pair { hi, lo }
}

// The pattern of a * b - hi, where hi is a * b rounded. Far from both ends of the exponents f64 operations will do, and that is quicker.
fn error_bits(a: f64, b: f64, hi: f64) -> u64
    requires { hi ≡ mul binary64 a b }
    ensures { bits result ≡ fma a b (neg hi) }
{
    // a product that is no NaN has no NaN as a factor
    if hi == hi {
        let x = f64::to_bits(a);
        let y = f64::to_bits(b);
        if is_middle(field(x)) && is_middle(field(y)) {
            return f64::to_bits(dekker_error(a, b, hi, x, y));
        }
    }
    math::fma_bits(math::pattern(a), math::pattern(b), math::pattern(-hi))
}
