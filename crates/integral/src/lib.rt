// Rounding to a whole number, and floor, on 64-bit patterns. Each public call is total, and its contract is an equation
// with `round_bits` or `floor_bits` of ieee754's specs/Operations.antt.
//
// The significand is shifted down to whole units in the direction, and what is left is written as a float, which is
// exact.
#![tactic(auto)]

ghost use Rattle.std.specs.Prelude.{◌≡◌, ◌⊎◌, [], ◌∷◌, ℕ, ◌+◌, ◌*◌, ◌^◌, ◌≤◌, ◌<◌};
ghost use Rattle.std.specs.Float.Ieee.{to_bits, of_bits};
ghost use Rattle.std.specs.Float.{binary64};
ghost use Rattle.rounding.specs.Rounding.{whole, round_to};
ghost use Rattle.ieee754.specs.Operations.{round_to_integral, first_nan, round_bits, floor_bits};

use operands::{negative, quiet};
use rounding::{Direction, INFINITY, LEADING, Rounding, SIGN, sign_bit};
use wide::Wide;

// The pattern of 2^52, from which on every float is a whole number.
const ALL_WHOLE: u64 = 0x4330000000000000;
// The pattern of 2^-11: what is below it is less than half, as every size below it is.
const TINY: u64 = 0x3f40000000000000;

// A whole number as a float.
fn from_whole(r: Rounding, w: u64) -> u64
    ensures { result ≡ to_bits binary64 (round_to r.dir binary64 r.neg w 1) }
{
    if w == 0 {
        sign_bit(r.neg)
    } else {
        r.round_wide(Wide { hi: 0, lo: w }, 2273)
    }
}

// The size x of a pattern, not zero and below that of 2^52, as a whole number.
fn whole_size(r: Rounding, x: u64) -> u64
    requires { (0 < x) × (x < 0x4330000000000000) }
    ensures { (q k : ℕ) → x ≡ k * 0x10000000000000 + q → q < 2 ^ 53 → ((k ≡ 0) ⊎ (2 ^ 52 ≤ q)) → result ≡ whole r.dir r.neg (q * 2 ^ k) (2 ^ 1074) }
{
    if x < TINY {
        r.round_shift(1, 63)
    } else {
        r.round_shift(LEADING + x % LEADING, 1075 - x / LEADING)
    }
}

// x as a whole number, in the direction.
fn integral_in(dir: Direction, x: u64) -> u64
    ensures { result ≡ first_nan (x ∷ []) (to_bits binary64 (round_to_integral dir (of_bits binary64 x))) }
{
    let m = x % SIGN;
    if INFINITY < m {
        return quiet(x);
    }
    if ALL_WHOLE <= m {
        return x;
    }
    if m == 0 {
        return x;
    }
    let r = Rounding {
        dir,
        neg: negative(x),
    };
    from_whole(r, whole_size(r, m))
}

// x as a whole number: the nearest, a tie to the even one.
pub fn round(x: u64) -> u64
    ensures { result ≡ round_bits x }
{
    integral_in(Direction::Nearest, x)
}

// The greatest whole number not above x.
pub fn floor(x: u64) -> u64
    ensures { result ≡ floor_bits x }
{
    integral_in(Direction::Down, x)
}
