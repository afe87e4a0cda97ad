// Fused multiply-add once more, quick where the exponents are near each other: the product and c then lie in two words with all their
// digits, and neither is shifted down; and quick where the product is small beside c: then nothing cancels, and one word will do. All
// other operands are handed to `multiply_add::fused_nearest`.
#![tactic(auto)]

ghost use Rattle.std.specs.Prelude.{◌≡◌, IsTrue, ℕ, ◌+◌, ◌-◌, ◌*◌, ◌^◌, ◌≤◌, ◌<◌};
ghost use Rattle.std.specs.Float.Ieee.{to_bits};
ghost use Rattle.std.specs.Float.{binary64};
ghost use Rattle.wide.specs.Words.{value, jammed};
ghost use Rattle.rounding.specs.declared.Direction.TheVariants.{Nearest};
ghost use Rattle.ieee754.specs.Operations.{sum_to, fused_bits};
ghost use Rattle.operands.specs.Machine.{field_of, Reads, Summands, SumOf, RoundsSum, fused_floats};
ghost use Rattle.fast_fused.specs.Machine.{Near, NearParts, Small, SmallParts};

use operands::{Parts, Signed, field, is_middle, negative, unlike_signs};
use rounding::{Direction, LEADING, Rounding, SIGN};
use wide::Wide;

// ---- operands

// The parts of a normal number.
fn read_normal(b: u64) -> Parts
    requires { (1 ≤ field_of b) × (field_of b < 2047) }
    ensures { Reads b result × (result.e ≡ field_of b + 51) }
{
    Parts {
        m: LEADING + b % LEADING,
        e: field(b) + 51,
    }
}

// ---- exponents that are near each other

// Whether the last digit of c, of the field z, is a digit of the product of a and b, of the fields x and y, or not far above it.
fn is_near(x: u64, y: u64, z: u64) -> bool
    requires { (x < 2048) × (y < 2048) × (z < 2048) }
    ensures { IsTrue result → Near x y z }
{
    is_middle(x) && is_middle(y) && x + y <= z + 1075 && z + 1003 <= x + y
}

// m * 2^k.
fn shift_left(m: u64, k: u64) -> Wide
    requires { (m < 2 ^ 53) × (1 ≤ k) × (k ≤ 73) }
    ensures { value result ≡ m * 2 ^ k }
{
    if k < 64 {
        Wide {
            hi: m >> (64 - k),
            lo: m << k,
        }
    } else {
        Wide {
            hi: m << (k - 64),
            lo: 0,
        }
    }
}

// ±x * y ±z, in units of half of the product's last digit.
fn exact_sum(s: bool, x: Parts, y: Parts, t: bool, z: Parts) -> Signed
    requires { NearParts x y z }
    ensures { SumOf s t (x.m * 2 * y.m) (z.m * 2 ^ (z.e + 1127 - (x.e + y.e))) result.neg (value result.size) }
{
    let p = Signed {
        neg: s,
        size: wide::multiply(x.m * 2, y.m),
    };
    let q = Signed {
        neg: t,
        size: shift_left(z.m, z.e + 1127 - (x.e + y.e)),
    };
    operands::add_signed(p, q)
}

fn round_exact(sum: Signed, e: u64) -> u64
    requires { (1251 ≤ e) × (e ≤ 3168) }
    ensures { RoundsSum Nearest sum.neg (value sum.size) e result }
{
    let nearest = Rounding {
        dir: Direction::Nearest,
        neg: sum.neg,
    };
    let w = sum.size;
    let hi = w.hi;
    let lo = w.lo;
    if hi != 0 {
        nearest.round_normal(w, e)
    } else if lo != 0 {
        nearest.round_word(lo, e)
    } else {
        0
    }
}

fn fused_near(a: u64, b: u64, c: u64) -> u64
    requires { Near (field_of a) (field_of b) (field_of c) }
    ensures { result ≡ fused_floats Nearest a b c }
{
    let x = read_normal(a);
    let y = read_normal(b);
    let z = read_normal(c);
    let sum = exact_sum(unlike_signs(a, b), x, y, negative(c), z);
    round_exact(sum, x.e + y.e + 20)
}

// ---- a product that is small beside c

// Whether the product of a and b, of the fields x and y, is surely below 2^-19 of c, of the field z.
fn is_small(x: u64, y: u64, z: u64) -> bool
    requires { (x < 2048) × (y < 2048) × (z < 2048) }
    ensures { IsTrue result → Small x y z }
{
    is_middle(x) && is_middle(y) && is_middle(z) && x + y <= z + 1002
}

// The high word of p, shifted down by k more, with a sticky bit.
fn shift_down(p: Wide, k: u64) -> u64
    ensures { result ≡ jammed (value p) (2 ^ (64 + k)) }
{
    let hi = p.hi;
    let lo = p.lo;
    let top = wide::set_sticky(hi, lo);
    let n = k.min(63);
    wide::set_sticky(top >> n, top % (1 << n))
}

// The product in the units of c's word, with a sticky bit.
fn small_product(x: Parts, y: Parts, z: Parts) -> u64
    requires { SmallParts x y z }
    ensures { result ≡ jammed (x.m * 1024 * (y.m * 2048)) (2 ^ (64 + (z.e + 1073 - (x.e + y.e)))) }
{
    let p = wide::multiply(x.m * 1024, y.m * 2048);
    shift_down(p, z.e + 1073 - (x.e + y.e))
}

// ±small ±large at the exponent e, rounded and packed.
fn add_small(s: bool, small: u64, t: bool, large: u64, e: u64) -> u64
    requires { (small < 2 ^ 61) × (2 ^ 62 ≤ large) × (large < 2 ^ 63) × (1251 ≤ e) × (e ≤ 3232) }
    ensures { (A B c : ℕ) → Summands B A c large small e → result ≡ to_bits binary64 (sum_to Nearest s A t B c) }
{
    let w = wide::pick(s == t, large + small, large - small);
    let nearest = Rounding {
        dir: Direction::Nearest,
        neg: t,
    };
    nearest.round_word(w, e)
}

fn fused_small(a: u64, b: u64, c: u64) -> u64
    requires { Small (field_of a) (field_of b) (field_of c) }
    ensures { result ≡ fused_floats Nearest a b c }
{
    let x = read_normal(a);
    let y = read_normal(b);
    let z = read_normal(c);
    let small = small_product(x, y, z);
    add_small(
        unlike_signs(a, b),
        small,
        negative(c),
        z.m * 1024,
        z.e + 1137,
    )
}

// ---- the call

// a * b + c, rounded once to nearest.
pub fn fused(a: u64, b: u64, c: u64) -> u64
    ensures { result ≡ fused_bits Nearest a b c }
{
    let x = field(a);
    let y = field(b);
    let z = field(c);
    if is_near(x, y, z) {
        fused_near(a, b, c)
    } else if is_small(x, y, z) {
        fused_small(a, b, c)
    } else {
        multiply_add::fused_nearest(a, b, c)
    }
}
