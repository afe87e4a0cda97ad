// Rounding to binary64 in a direction, IEEE 754-2019 4.3: the one round-and-pack routine of every operation.
// What rounding means is defined in specs/Rounding.antt. A significand may end in a sticky bit, which stands for what
// was cut off below it; the contracts say of which exact numbers it is the significand (`Stands` of specs/Machine.antt).
#![tactic(auto)]

ghost use Rattle.std.specs.Prelude.{◌≡◌, ℕ, ◌+◌, ◌-◌, ◌*◌, ◌%◌, ◌^◌, ◌≤◌, ◌<◌, true, false};
ghost use Rattle.std.specs.Result.{result_ok};
ghost use Rattle.std.specs.Int.Count.{count_leading_zeros};
ghost use Rattle.std.specs.Float.Ieee.{to_bits};
ghost use Rattle.std.specs.Float.{binary64};
ghost use Rattle.wide.specs.Words.{value, jammed};
ghost use Rattle.rounding.specs.declared.Direction.TheVariants.{Nearest};
ghost use Rattle.rounding.specs.Rounding.{whole, round_to};
ghost use Rattle.rounding.specs.Named.{direction_of, refusal_of};
ghost use Rattle.rounding.specs.Machine.{sign_bit, overflow_bits, bounded_bits, packed, to_nearest, rounds_away, increment, normal_bits, Stands, Rounds, RoundsWord};

use reply::Refusal;
use wide::Wide;

// The rounding-direction attributes of 4.3.
#[derive(Clone, Copy, Debug, PartialEq, Eq)]
pub enum Direction {
    Nearest,
    TowardZero,
    Up,
    Down,
}

// A byte that names no direction.
#[derive(Clone, Copy, Debug, PartialEq, Eq)]
pub struct UnknownDirection;

impl Refusal for UnknownDirection {
    ghost number = { refusal_of };

    fn number(self) -> u8 {
        11
    }
}

// The pattern of a sign alone.
pub const SIGN: u64 = 0x8000000000000000;
// The pattern of +infinity.
pub const INFINITY: u64 = 0x7ff0000000000000;
// The pattern of the largest finite number.
const LARGEST: u64 = 0x7fefffffffffffff;
// The leading digit of a significand: one step of the exponent field.
pub const LEADING: u64 = 0x10000000000000;

// What a byte names (document 02, A.3).
impl TryFrom<u8> for Direction {
    type Error = UnknownDirection;

    ghost try_from_gives = { λ byte r. result_ok r ≡ direction_of byte };

    fn try_from(byte: u8) -> Result<Self, UnknownDirection> {
        match byte {
            0 => Ok(Direction::Nearest),
            1 => Ok(Direction::TowardZero),
            2 => Ok(Direction::Up),
            3 => Ok(Direction::Down),
            _ => Err(UnknownDirection),
        }
    }
}

pub fn sign_bit(neg: bool) -> u64
    ensures { result ≡ sign_bit neg }
{
    if neg { SIGN } else { 0 }
}

// 2^k - 1.
fn ones(k: u64) -> u64
    requires { k ≤ 63 }
    ensures { result ≡ 2 ^ k - 1 }
{
    (1 << k) - 1
}

// The 64 leading digits of w, with a sticky bit for the others.
fn leading_digits(w: Wide) -> u64
    requires { 0 < w.hi }
    ensures { (2 ^ 63 ≤ result) × (result ≡ jammed (value w) (2 ^ (64 - count_leading_zeros 64 w.hi))) }
{
    let hi = w.hi;
    let lo = w.lo;
    let z = u64::leading_zeros(hi) as u64;
    wide::set_sticky((hi << z) + (lo / 2 >> (63 - z)), lo << z)
}

// How a size is rounded: the direction, and the sign of the number that has the size.
#[derive(Clone, Copy)]
pub struct Rounding {
    pub dir: Direction,
    pub neg: bool,
}

impl Rounding {
    // What a direction asks for is made for all of them and one is picked: branches on the direction would become jump tables.
    fn to_nearest(self) -> bool
        ensures { result ≡ to_nearest self.dir }
    {
        self.dir == Direction::Nearest
    }

    // Whether a directed rounding moves a size away from zero.
    fn rounds_away(self) -> bool
        ensures { result ≡ rounds_away self.dir self.neg }
    {
        if self.neg {
            self.dir == Direction::Down
        } else {
            self.dir == Direction::Up
        }
    }

    fn overflow_bits(self) -> u64
        ensures { result ≡ overflow_bits self.dir self.neg }
    {
        let directed = wide::pick(self.rounds_away(), INFINITY, LARGEST);
        wide::pick(self.to_nearest(), INFINITY, directed)
    }

    // The size of a result, which is an infinity's or more where it overflows.
    fn bound(self, bits: u64) -> u64
        ensures { result ≡ bounded_bits self.dir self.neg bits }
    {
        if bits < INFINITY {
            bits
        } else {
            self.overflow_bits()
        }
    }

    // The pattern of the sign and such a size.
    fn pack(self, bits: u64) -> u64
        ensures { result ≡ packed self.dir self.neg bits }
    {
        sign_bit(self.neg) + self.bound(bits)
    }

    fn increment(self, odd: u64, k: u64) -> u64
        requires { (1 ≤ k) × (k ≤ 63) × (odd ≤ 1) }
        ensures { result ≡ increment self.dir self.neg odd k }
    {
        let nearest = ones(k - 1) + odd;
        let directed = wide::pick(self.rounds_away(), ones(k), 0);
        wide::pick(self.to_nearest(), nearest, directed)
    }

    // m / 2^k as a whole number.
    pub fn round_shift(self, m: u64, k: u64) -> u64
        requires { (1 ≤ k) × (k ≤ 63) }
        ensures { result ≡ whole self.dir self.neg m (2 ^ k) }
    {
        let q = m >> k;
        let rest = m % (1 << k);
        q + ((rest + self.increment(q % 2, k)) >> k)
    }

    // m * 2^e in units of 2^-2337, at least the least normal number, rounded: the pattern without a sign, an infinity's or more where
    // the result overflows. It is the quotient, plus a step of the exponent field for each digit that is dropped beyond the 11 of the
    // least normal number, so that a carry moves on into the field by itself.
    fn normal_bits(self, m: u64, e: u64) -> u64
        requires { (2 ^ 63 ≤ m) × (1252 ≤ e) × (e ≤ 4322) }
        ensures { result ≡ normal_bits self.dir self.neg m e }
    {
        (e - 1252) * LEADING + self.round_shift(m, 11)
    }

    // m * 2^e in units of 2^-2337, rounded, subnormal or normal.
    fn round_bits(self, m: u64, e: u64) -> u64
        requires { (2 ^ 63 ≤ m) × (e ≤ 4322) }
        ensures { (num den : ℕ) → Stands 2337 num den m e → to_bits binary64 (round_to self.dir binary64 self.neg num den) ≡ packed self.dir self.neg result }
    {
        if 1252 <= e {
            return self.normal_bits(m, e);
        }
        let half = wide::set_sticky(m / 2, m % 2);
        if 1199 <= e {
            self.round_shift(half, 1262 - e)
        } else {
            // less than half of the smallest subnormal number
            self.round_shift(1, 63)
        }
    }

    // m * 2^e in units of 2^-2337, rounded and packed.
    pub fn round_pack(self, m: u64, e: u64) -> u64
        requires { (2 ^ 63 ≤ m) × (e ≤ 4322) }
        ensures { (num den : ℕ) → Stands 2337 num den m e → result ≡ to_bits binary64 (round_to self.dir binary64 self.neg num den) }
    {
        self.pack(self.round_bits(m, e))
    }

    // The pattern of a result that is surely a normal number.
    fn pack_normal(self, m: u64, e: u64) -> u64
        requires { (2 ^ 63 ≤ m) × (1252 ≤ e) × (e ≤ 3296) }
        ensures { result ≡ packed self.dir self.neg (normal_bits self.dir self.neg m e) }
    {
        sign_bit(self.neg) + self.normal_bits(m, e)
    }

    // w * 2^e in units of 2^-2273, rounded and packed.
    pub fn round_wide(self, w: Wide, e: u64) -> u64
        requires { (0 < value w) × (e ≤ 4194) }
        ensures { Rounds self.dir self.neg (value w) e result }
    {
        let hi = w.hi;
        let lo = w.lo;
        if hi == 0 {
            let z = u64::leading_zeros(lo) as u64;
            self.round_pack(lo << z, e + 64 - z)
        } else {
            let z = u64::leading_zeros(hi) as u64;
            self.round_pack(leading_digits(w), e + 128 - z)
        }
    }

    // The same, where the result is surely a normal number. To nearest it is short, and stands in its caller's body.
    pub fn round_normal(self, w: Wide, e: u64) -> u64
        requires { (0 < w.hi) × (1187 ≤ e) × (e ≤ 3168) }
        ensures { Rounds self.dir self.neg (value w) e result }
    {
        match self.dir {
            Direction::Nearest => round_nearest(self.neg, w, e),
            _ => self.round_wide(w, e),
        }
    }

    // The same for one word. It may end in a sticky bit where it has 62 digits or more.
    pub fn round_word(self, w: u64, e: u64) -> u64
        requires { (0 < w) × (1251 ≤ e) × (e ≤ 3232) }
        ensures { RoundsWord self.dir self.neg w e result }
    {
        let z = u64::leading_zeros(w) as u64;
        self.pack_normal(w << z, e + 64 - z)
    }
}

// round_normal to nearest.
fn round_nearest(neg: bool, w: Wide, e: u64) -> u64
    requires { (0 < w.hi) × (1187 ≤ e) × (e ≤ 3168) }
    ensures { Rounds Nearest neg (value w) e result }
{
    let hi = w.hi;
    let z = u64::leading_zeros(hi) as u64;
    let nearest = Rounding {
        dir: Direction::Nearest,
        neg,
    };
    nearest.pack_normal(leading_digits(w), e + 128 - z)
}
