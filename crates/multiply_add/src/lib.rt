// Fused multiply-add on 64-bit patterns. The public call `fused` is total, and its contract is an equation with `fused_reply` of
// specs/Fused.antt, over `fused_bits` of ieee754's specs/Operations.antt. `fused_special` returns a NaN operand; past it there is none.
//
// The product of two significands lies in two words, and so does the addend, brought to the same number of digits. The
// one of the smaller exponent is shifted down to the other's, with a sticky bit; then the sum, or the difference by
// subtraction with a borrow, is rounded and packed once.
#![tactic(auto)]

ghost use Rattle.std.specs.Prelude.{◌≡◌, ℕ, ◌+◌, ◌*◌, ◌^◌, ◌≤◌, ◌<◌};
ghost use Rattle.std.specs.Float.Ieee.{to_bits, of_bits};
ghost use Rattle.std.specs.Float.{binary64};
ghost use Rattle.wide.specs.Words.{value};
ghost use Rattle.reply.specs.Told.{numbered};
ghost use Rattle.rounding.specs.declared.Direction.{Direction};
ghost use Rattle.rounding.specs.declared.Direction.TheVariants.{Nearest};
ghost use Rattle.rounding.specs.Named.{refusal_of};
ghost use Rattle.rounding.specs.Rounding.{round_to};
ghost use Rattle.ieee754.specs.Operations.{zero_sign, sum_to, plus, exactly, infinite, fused_bits};
ghost use Rattle.multiply_add.specs.Fused.{fused_reply};
ghost use Rattle.operands.specs.Machine.{magnitude, Regular, Ready, product_size, addend_size, RoundsSum, fused_floats};

use operands::{NAN, Parts, Signed, is_regular, negative, quiet, read, unlike_signs};
use rounding::{Direction, INFINITY, Rounding, SIGN, UnknownDirection, sign_bit};
use wide::Wide;

// ---- finite numbers that are not zero

// The sign of an exact zero sum of unlike signs.
fn zero_sign(dir: Direction) -> bool
    ensures { result ≡ zero_sign dir }
{
    dir == Direction::Down
}

// w at the exponent e, rounded and packed; zero is an exact zero sum of unlike signs.
fn round_sum(r: Rounding, w: Wide, e: u64) -> u64
    requires { e ≤ 4194 }
    ensures { RoundsSum r.dir r.neg (value w) e result }
{
    if wide::is_zero(w) {
        sign_bit(zero_sign(r.dir))
    } else {
        r.round_wide(w, e)
    }
}

// The same, short where the sum is surely rounded to a normal number.
fn round_usual(r: Rounding, w: Wide, e: u64) -> u64
    requires { e ≤ 4194 }
    ensures { RoundsSum r.dir r.neg (value w) e result }
{
    let hi = w.hi;
    if hi == 0 || e < 1187 || 3168 < e {
        return round_sum(r, w, e);
    }
    r.round_normal(w, e)
}

// ±p * 2^pe ±q * 2^qe, rounded and packed.
fn align(dir: Direction, p: Signed, pe: u64, q: Signed, qe: u64) -> u64
    requires { Ready (value p.size) × Ready (value q.size) × (pe ≤ 4194) × (qe ≤ 4194) }
    ensures { (A B c : ℕ) → 0 < c → A * 2 ^ 2273 ≡ value p.size * 2 ^ pe * c → B * 2 ^ 2273 ≡ value q.size * 2 ^ qe * c → result ≡ to_bits binary64 (sum_to dir p.neg A q.neg B c) }
{
    let swap = pe < qe;
    let x = wide::pick(swap, q, p);
    let y = wide::pick(swap, p, q);
    let xe = wide::pick(swap, qe, pe);
    let ye = wide::pick(swap, pe, qe);
    let shifted = Signed {
        neg: y.neg,
        size: wide::shift_right_jam(y.size, xe - ye),
    };
    let sum = operands::add_signed(x, shifted);
    let r = Rounding { dir, neg: sum.neg };
    round_usual(r, sum.size, xe)
}

// The product of two significands, with 21 zeros below it.
fn product(a: Parts, b: Parts) -> Wide
    ensures { value result ≡ a.m * 1024 * (b.m * 2048) }
{
    wide::multiply(a.m * 1024, b.m * 2048)
}

// ±a * b ±c, rounded and packed.
fn fused_parts(dir: Direction, s: bool, a: Parts, b: Parts, t: bool, c: Parts) -> u64
    ensures { (A B d : ℕ) → 0 < d → A * 2 ^ 2273 ≡ product_size a b * d → B * 2 ^ 2273 ≡ addend_size c * d → result ≡ to_bits binary64 (sum_to dir s A t B d) }
{
    let p = Signed {
        neg: s,
        size: product(a, b),
    };
    let q = Signed {
        neg: t,
        size: Wide {
            hi: c.m * 1024,
            lo: 0,
        },
    };
    align(dir, p, a.e + b.e, q, c.e + 1073)
}

fn fused_nonzero(dir: Direction, a: u64, b: u64, c: u64) -> u64
    requires { Regular a × Regular b × Regular c }
    ensures { result ≡ fused_floats dir a b c }
{
    let s = unlike_signs(a, b);
    fused_parts(dir, s, read(a), read(b), negative(c), read(c))
}

// ---- zeros, infinities and NaNs

// ±a * b, rounded and packed.
fn product_parts(r: Rounding, a: Parts, b: Parts) -> u64
    ensures { (A d : ℕ) → 0 < d → A * 2 ^ 2273 ≡ product_size a b * d → result ≡ to_bits binary64 (round_to r.dir binary64 r.neg A d) }
{
    r.round_wide(product(a, b), a.e + b.e)
}

// a * b + c for finite a and b that are not zero, and a c that is.
fn fused_zero_addend(dir: Direction, a: u64, b: u64, c: u64) -> u64
    requires { Regular a × Regular b × (magnitude c ≡ 0) }
    ensures { result ≡ fused_floats dir a b c }
{
    let r = Rounding {
        dir,
        neg: unlike_signs(a, b),
    };
    product_parts(r, read(a), read(b))
}

// A zero product with the sign s, plus a finite c.
fn zero_product(dir: Direction, s: bool, c: u64) -> u64
    requires { magnitude c < 0x7ff0000000000000 }
    ensures { (q : ℕ) → 0 < q → result ≡ to_bits binary64 (plus dir (exactly s 0 q) (of_bits binary64 c)) }
{
    let z = c % SIGN;
    if s == negative(c) || z != 0 {
        c
    } else {
        sign_bit(zero_sign(dir))
    }
}

// a * b + c for finite a and b, where one of the three is zero or c is infinite.
fn fused_finite(dir: Direction, a: u64, b: u64, c: u64) -> u64
    requires { (magnitude a < 0x7ff0000000000000) × (magnitude b < 0x7ff0000000000000) × (magnitude c ≤ 0x7ff0000000000000) × (Regular a → Regular b → Regular c → ⊥) }
    ensures { result ≡ fused_floats dir a b c }
{
    let x = a % SIGN;
    let y = b % SIGN;
    let z = c % SIGN;
    if z == INFINITY {
        return c;
    }
    if x == 0 || y == 0 {
        return zero_product(dir, unlike_signs(a, b), c);
    }
    fused_zero_addend(dir, a, b, c)
}

// An infinite product with the sign s, plus c.
fn infinite_product(s: bool, c: u64) -> u64
    requires { magnitude c ≤ 0x7ff0000000000000 }
    ensures { (d : Direction) → result ≡ to_bits binary64 (plus d (infinite s) (of_bits binary64 c)) }
{
    let z = c % SIGN;
    if z == INFINITY {
        return if s == negative(c) { c } else { NAN };
    }
    sign_bit(s) + INFINITY
}

// a * b + c where a or b is infinite.
fn fused_infinite(a: u64, b: u64, c: u64) -> u64
    requires { (magnitude a ≤ 0x7ff0000000000000) × (magnitude b ≤ 0x7ff0000000000000) × (magnitude c ≤ 0x7ff0000000000000) × (magnitude a < 0x7ff0000000000000 → magnitude b ≡ 0x7ff0000000000000) }
    ensures { (d : Direction) → result ≡ fused_floats d a b c }
{
    let x = a % SIGN;
    let y = b % SIGN;
    if x == 0 || y == 0 {
        return NAN;
    }
    infinite_product(unlike_signs(a, b), c)
}

// a * b + c where one of the three is a zero, an infinity or a NaN.
fn fused_special(dir: Direction, a: u64, b: u64, c: u64) -> u64
    requires { Regular a → Regular b → Regular c → ⊥ }
    ensures { result ≡ fused_bits dir a b c }
{
    let x = a % SIGN;
    let y = b % SIGN;
    let z = c % SIGN;
    if INFINITY < x {
        return quiet(a);
    }
    if INFINITY < y {
        return quiet(b);
    }
    if INFINITY < z {
        return quiet(c);
    }
    if x == INFINITY || y == INFINITY {
        return fused_infinite(a, b, c);
    }
    fused_finite(dir, a, b, c)
}

// a * b + c, rounded once in the direction, which comes last: fast_fused hands a, b and c on in the registers that they came in.
pub fn fused_in(a: u64, b: u64, c: u64, dir: Direction) -> u64
    ensures { result ≡ fused_bits dir a b c }
{
    if is_regular(a) && is_regular(b) && is_regular(c) {
        fused_nonzero(dir, a, b, c)
    } else {
        fused_special(dir, a, b, c)
    }
}

// The same to nearest.
pub fn fused_nearest(a: u64, b: u64, c: u64) -> u64
    ensures { result ≡ fused_bits Nearest a b c }
{
    fused_in(a, b, c, Direction::Nearest)
}

// a * b + c, rounded once in the direction that the byte names; a byte that names none is refused.
pub fn fused(direction: u8, a: u64, b: u64, c: u64) -> Result<u64, UnknownDirection>
    ensures { numbered refusal_of result ≡ fused_reply direction a b c }
{
    let dir = Direction::try_from(direction)?;
    Ok(fused_in(a, b, c, dir))
}
