// Numbers below 2^128 in two 64-bit words, for the product of two significands: product, sum, difference, order, and
// the right shift that keeps a sticky bit. Every call is total; each contract is an equation over `value`, which
// specs/Words.antt defines.
#![tactic(auto)]

ghost use Rattle.std.specs.Prelude.{◌≡◌, ◌+◌, ◌*◌, ◌/◌, ◌%◌, ◌^◌, ◌<◌, ◌≤◌, if◌then◌else◌, ◌==◌};
ghost use Rattle.wide.specs.Words.{value, sticky, jammed};

// hi * 2^64 + lo.
#[derive(Clone, Copy)]
pub struct Wide {
    pub hi: u64,
    pub lo: u64,
}

// The base of the digits that a word's product is worked out in.
const BASE: u64 = 0x1_0000_0000;

// The high word of u * v. Each word has a function of its own: the compiler knows both forms, and makes one multiply of them.
fn multiply_high(u: u64, v: u64) -> u64
    ensures { result ≡ u * v / 2 ^ 64 }
{
    let u0 = u % BASE;
    let u1 = u / BASE;
    let v0 = v % BASE;
    let v1 = v / BASE;
    let w0 = u0 * v0;
    let t = u1 * v0 + w0 / BASE;
    let w1 = t % BASE + u0 * v1;
    u1 * v1 + t / BASE + w1 / BASE
}

// The low word of u * v.
fn multiply_low(u: u64, v: u64) -> u64
    ensures { result ≡ u * v % 2 ^ 64 }
{
    let u0 = u % BASE;
    let u1 = u / BASE;
    let v0 = v % BASE;
    let v1 = v / BASE;
    let w0 = u0 * v0;
    let t = u1 * v0 + w0 / BASE;
    let w1 = t % BASE + u0 * v1;
    w1 % BASE * BASE + w0 % BASE
}

// u * v.
pub fn multiply(u: u64, v: u64) -> Wide
    ensures { value result ≡ u * v }
{
    Wide {
        hi: multiply_high(u, v),
        lo: multiply_low(u, v),
    }
}

// x + y modulo 2^128.
pub fn add(x: Wide, y: Wide) -> Wide
    ensures { value result ≡ (value x + value y) % 2 ^ 128 }
{
    let lo = x.lo.wrapping_add(y.lo);
    let hi = x.hi.wrapping_add(y.hi);
    if lo < x.lo {
        let carried = hi.wrapping_add(1);
        Wide { hi: carried, lo }
    } else {
        Wide { hi, lo }
    }
}

// x - y modulo 2^128: both words are subtracted modulo 2^64, and the borrow of the low ones is carried.
pub fn sub(x: Wide, y: Wide) -> Wide
    ensures { (value result + value y) % 2 ^ 128 ≡ value x }
{
    let lo = x.lo.wrapping_sub(y.lo);
    let hi = x.hi.wrapping_sub(y.hi);
    if x.lo < y.lo {
        let borrowed = hi.wrapping_sub(1);
        Wide { hi: borrowed, lo }
    } else {
        Wide { hi, lo }
    }
}

pub fn is_zero(x: Wide) -> bool
    ensures { result ≡ (value x == 0) }
{
    x.hi == 0 && x.lo == 0
}

// One of two values, by a conditional move: what depends on the operands' bits must not become a branch.
pub fn pick<T: Copy>(b: bool, x: T, y: T) -> T
    ensures { result ≡ (if b then x else y) }
{
    if b { x } else { y }
}

// q, made odd where something is lost below it.
pub fn set_sticky(q: u64, rest: u64) -> u64
    ensures { result ≡ sticky q rest }
{
    if rest == 0 { q } else { q / 2 * 2 + 1 }
}

// x / 2^64, with the sticky bit.
fn shift_word(x: Wide) -> Wide
    ensures { value result ≡ jammed (value x) (2 ^ 64) }
{
    let lo = set_sticky(x.hi, x.lo);
    Wide { hi: 0, lo }
}

// x / 2^t, with the sticky bit. A shift by 64 - t is made in two steps, since t may be 0.
fn shift_bits(x: Wide, t: u64) -> Wide
    requires { t ≤ 63 }
    ensures { value result ≡ jammed (value x) (2 ^ t) }
{
    let carried = x.hi << 1 << (63 - t);
    let rest = x.lo << 1 << (63 - t);
    Wide {
        hi: x.hi >> t,
        lo: set_sticky(carried + (x.lo >> t), rest),
    }
}

// x / 2^t, with the sticky bit. From 127 on all that is left of x is the sticky bit.
pub fn shift_right_jam(x: Wide, t: u64) -> Wide
    ensures { value result ≡ jammed (value x) (2 ^ t) }
{
    let k = t.min(127);
    shift_bits(pick(k < 64, x, shift_word(x)), k % 64)
}
