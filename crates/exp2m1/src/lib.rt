// 2^x - 1 for a binary64 x: the module exp2m1.rs, with its names, order, operands and association, but for step 6, which is read from a
// table (crates/exp2m1_whole).
//
// score promises, for every 64-bit pattern, the pattern that score_bits of specs/Score.antt gives: document 01's steps 1 to 8 over IEEE
// operations. score_found promises the same steps with a list of entries in step 5 that the caller has looked through (score_with). The
// phases promise the definitions of their names in specs/Phases.antt.
#![tactic(auto)]

ghost use Rattle.std.specs.Prelude.{◌≡◌, ◌%◌, ◌^◌, ◌<◌, leb, List, unwrap_or};
ghost use Rattle.std.specs.Float.{binary64};
ghost use Rattle.std.specs.Float.Ieee.{to_bits};
ghost use Rattle.exp2m1.specs.Phases.{exp2m1_scaled, exp2m1_two_terms, subtract_one, exp2m1_fast, exp2m1_accurate};
ghost use Rattle.exp2m1.specs.Score.{is_whole, rounded, steps, score_with, score_bits};
ghost use Rattle.exp2m1.specs.Range.{Bounded, is_small};
ghost use Rattle.pair.specs.Pair.{bits};
ghost use Rattle.exceptions.specs.declared.Entry.{Entry};
ghost use Rattle.exceptions.specs.declared.Stretch.TheVariants.{First};
ghost use Rattle.exceptions.specs.Lookup.{find, entries};

use double_double::{a_mul, fast_two_sum, s_mul};
use exceptions::Stretch;
use exp2m1_tiny::Estimate;
use exponential::{LN2H, LN2L};
use operands::quiet;
use pair::Pair;
use rounding::{INFINITY, SIGN};

const MINUS_ONE: f64 = -1.0;

const MINUS_53: f64 = -53.0;

const TWO_106: f64 = f64::from_bits(0x4690000000000000); // 0x1p106

const TWO_M106: f64 = f64::from_bits(0x3950000000000000); // 0x1p-106

const C2: f64 = f64::from_bits(0x3fcebfbdff82c58f); // 0x1.ebfbdff82c58fp-3, log(2)^2/2

const FAST_ERROR: f64 = f64::from_bits(0x3b84200000000000); // 0x1.42p-71 > 2^-70.67

// The bits of |x| up to which step 4 decides, 2^-104, and up to which step 5 does, 0x1.0527dbd87e24dp-51.
const SCALED: u64 = 0x3970000000000000;

const SMALL: u64 = 0x3cc0527dbd87e24d;

// The score of the weight with the bits x: the bits of 2^x - 1, or a NaN's own with the top fraction bit set.
pub fn score(x: u64) -> u64
    ensures { result ≡ score_bits x }
{
    let y = exp2m1(math::from_bits(x));
    // Behind the steps, and not before: where their result is a number, the weight takes no test more.
    if y.is_nan() && INFINITY < x % SIGN {
        return quiet(x);
    }
    math::to_bits(y)
}

// The score where another list stands in for the first table of exceptional cases, and has found for x.
#[tactic(auto, using(crate::proofs::Small::small, crate::proofs::Small::elsewhere), unfolding(crate::specs::Score::score_bits))]
pub fn score_found(x: u64, found: Option<f64>) -> u64
    ensures { (list : List Entry) → found ≡ find list (bits x) → result ≡ score_with list x }
{
    if is_small(x) {
        if let Some(result) = found {
            return math::to_bits(result);
        }
        return math::to_bits(exp2m1_two_terms(math::from_bits(x)));
    }
    score(x)
}

// Whether step 5 decides the weight with the bits ux.
#[tactic(auto, unfolding(crate::specs::Range::is_small))]
fn is_small(ux: u64) -> bool
    ensures { result ≡ is_small ux }
{
    let ax = ux % 0x8000000000000000;
    SCALED < ax && ax <= SMALL
}

// Base-2 exponential minus one: 2^x - 1.
fn exp2m1(x: f64) -> f64
    ensures { result ≡ steps (entries First) (to_bits binary64 x) x }
{
    cr_exp2m1(x)
}

#[tactic(auto, unfolding(crate::specs::Score::steps))]
fn cr_exp2m1(x: f64) -> f64
    ensures { result ≡ steps (entries First) (to_bits binary64 x) x }
{
    let ux = math::to_bits(x);
    let ax = ux % 0x8000000000000000;
    if ux >= 0xc04b000000000000 {
        // for x <= -54, exp2m1(x) rounds to -1 to nearest
        return MINUS_ONE;
    }
    if ax >= 0x4090000000000000 {
        // x = NaN or x >= 1024
        if ax > 0x7ff0000000000000 {
            return x + x;
        }
        // for x >= 1024, exp2m1(x) rounds to +Inf to nearest
        return f64::from_bits(0x7ff0000000000000);
    }
    // |x| <= 2^-104
    if ax <= SCALED {
        // special case for 0
        if x == 0.0 {
            return x;
        }
        return exp2m1_scaled(x);
    }
    // 2^-104 < |x| <= 0x1.0527dbd87e24dp-51
    if ax <= SMALL {
        return exp2m1_small(x);
    }
    // 2^x-1 is exact for x integer, -53 <= x <= 53
    if is_whole(ux, x) {
        return exp2m1_whole::exp2m1_whole(x);
    }
    // now -54 < x < -0x1.0527dbd87e24dp-51
    // or 0x1.0527dbd87e24dp-51 < x < 1024
    exp2m1_phases(x, ax <= 0x3fc0000000000000)
}

// The fast phase where its error bound decides the rounding, and the accurate phase otherwise.
#[tactic(auto, unfolding(crate::specs::Score::rounded))]
fn exp2m1_phases(x: f64, tiny: bool) -> f64
    requires { Bounded x × (tiny ≡ leb (to_bits binary64 x % 2 ^ 63) 0x3fc0000000000000) }
    ensures { result ≡ rounded (exp2m1_fast x tiny) (exp2m1_accurate x) }
{
    let e = exp2m1_fast(x, tiny);
    let p = e.pair;
    let err = e.err;
    let left = p.hi + (p.lo - err);
    let right = p.hi + (p.lo + err);
    if left == right {
        return left;
    }
    exp2m1_accurate(x)
}

// |x| <= 2^-104: the double-double approximation hi+lo would have its lower part lo "truncated".
#[tactic(auto, unfolding(crate::specs::Phases::exp2m1_scaled))]
fn exp2m1_scaled(x: f64) -> f64
    ensures { result ≡ exp2m1_scaled x }
{
    // scale x by 2^106
    let x = x * TWO_106;
    let p = a_mul(LN2H, x);
    let lo = math::fma(LN2L, x, p.lo);
    let h2 = p.hi + lo; // round to 53-bit precision
    // scale back, hoping to avoid double rounding
    let h2 = h2 * TWO_M106;
    // now subtract back h2 * 2^106 from hi to get the correction term
    // add lo
    let hi = math::fma(-h2, TWO_106, p.hi) + lo;
    // add h2 + hi * 2^-106
    math::fma(hi, TWO_M106, h2)
}

// 2^-104 < |x| <= 0x1.0527dbd87e24dp-51: the exceptional cases, then two terms of the Taylor expansion.
fn exp2m1_small(x: f64) -> f64
    ensures { result ≡ unwrap_or (find (entries First) x) (exp2m1_two_terms x) }
{
    if let Some(result) = exceptions::exception(Stretch::First, x) {
        return result;
    }
    exp2m1_two_terms(x)
}

#[tactic(auto, unfolding(crate::specs::Phases::exp2m1_two_terms))]
fn exp2m1_two_terms(x: f64) -> f64
    ensures { result ≡ exp2m1_two_terms x }
{
    let p = a_mul(LN2H, x);
    let lo = math::fma(LN2L, x, p.lo);
    // hi+lo approximates the first term x*log(2)
    // we add C2*x^2 last, so that in case there is a cancellation in
    // LN2L*x+lo, it will contribute more bits
    let lo = lo + C2 * x * x;
    p.hi + lo
}

// Whether the low 47 bits of ux are zero, and x is a whole number from -53 to 53.
#[tactic(auto, unfolding(crate::specs::Score::is_whole))]
fn is_whole(ux: u64, x: f64) -> bool
    ensures { result ≡ is_whole ux x }
{
    if ux % 0x800000000000 != 0 {
        return false;
    }
    let i = math::floor(x);
    x == i && MINUS_53 <= i && i <= 53.0
}

// Given -54 < x < -0x1.0527dbd87e24dp-51 or 0x1.0527dbd87e24dp-51 < x < 1024, put in hi + lo
// a double-double approximation of exp2m1(x), and return the maximal corresponding
// absolute error.
// The input tiny is true iff |x| <= 0.125.
#[tactic(auto, unfolding(crate::specs::Phases::exp2m1_fast))]
fn exp2m1_fast(x: f64, tiny: bool) -> Estimate
    requires { Bounded x × (tiny ≡ leb (to_bits binary64 x % 2 ^ 63) 0x3fc0000000000000) }
    ensures { result ≡ exp2m1_fast x tiny }
{
    // |x| <= 0.125
    if tiny {
        return exp2m1_tiny::exp2m1_fast_tiny(x);
    }
    // now -54 < x < -0.125 or 0.125 < x < 1024: we approximate exp(x*log(2))
    // and subtract 1
    let p = s_mul(x, Pair { hi: LN2H, lo: LN2L });
    let p = exponential::exp_1(p);
    // hi_out + lo_out = exp(hi + lo) * (1 + eps) with |eps| < 2^-74.139
    let pair = subtract_one(x, p);
    let err = FAST_ERROR * pair.hi;
    Estimate { pair, err }
}

// p - 1, where p approximates 2^x.
#[tactic(auto, unfolding(crate::specs::Phases::subtract_one))]
fn subtract_one(x: f64, p: Pair) -> Pair
    ensures { result ≡ subtract_one x p }
{
    if x >= 0.0 {
        // implies hi >= 1 and the fast_two_sum pre-condition holds
        let s = fast_two_sum(p.hi, MINUS_ONE);
        return Pair {
            hi: s.hi,
            lo: p.lo + s.lo,
        };
    }
    let s = fast_two_sum(MINUS_ONE, p.hi); // x < 0 thus hi <= 1
    Pair {
        hi: s.hi,
        lo: p.lo + s.lo,
    }
}

#[tactic(auto, unfolding(crate::specs::Phases::exp2m1_accurate))]
fn exp2m1_accurate(x: f64) -> f64
    requires { Bounded x }
    ensures { result ≡ exp2m1_accurate x }
{
    let ux = math::to_bits(x);
    let ax = ux % 0x8000000000000000;
    // |x| <= 0.125
    if ax <= 0x3fc0000000000000 {
        return exp2m1_tiny::exp2m1_accurate_tiny(x);
    }
    // now -54 < x < -0.125 or 0.125 < x < 1024: we approximate exp(x*log(2))
    // and subtract 1
    if let Some(result) = exceptions::exception(Stretch::Wide, x) {
        return result;
    }
    let p = exponential::exp_2(x);
    let p = subtract_one(x, p);
    // the error in the above fast_two_sum is bounded by 2^-105*|hi|,
    // with the new value of hi
    p.hi + p.lo
}
