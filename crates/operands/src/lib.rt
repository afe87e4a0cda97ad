// What the operations of the crate `ieee754` have in common: the code here takes a 64-bit pattern as a sign, and as a significand and an
// exponent. The crates `multiply_add`, `integral` and `scaling` compute the operations.
#![tactic(auto)]

mod parts;

ghost use Rattle.std.specs.Prelude.{◌≡◌, ◌↔◌, IsTrue, ◌*◌, ◌^◌, ◌<◌};
ghost use Rattle.std.specs.Float.Ieee.{unlike};
ghost use Rattle.wide.specs.Words.{value};
ghost use Rattle.ieee754.specs.Operations.{quiet};
ghost use Rattle.operands.specs.Machine.{sign_of, field_of, Middle, Regular, Reads, SumOf};

pub use parts::Parts;
use rounding::{INFINITY, LEADING, SIGN};
use wide::Wide;

// The pattern of a NaN result where no operand is a NaN.
pub const NAN: u64 = 0x7ff8000000000000;

// The top bit of a fraction.
const TOP: u64 = 0x8000000000000;

pub fn negative(b: u64) -> bool
    ensures { result ≡ sign_of b }
{
    SIGN <= b
}

// Whether a product of the two is negative.
pub fn unlike_signs(a: u64, b: u64) -> bool
    ensures { result ≡ unlike (sign_of a) (sign_of b) }
{
    negative(a) != negative(b)
}

// A NaN with its sign and payload and with its top fraction bit set.
#[tactic(auto, unfolding(ieee754::specs::Operations::quiet))]
pub fn quiet(b: u64) -> u64
    ensures { result ≡ quiet b }
{
    b / LEADING * LEADING + TOP + b % TOP
}

// The exponent field.
pub fn field(b: u64) -> u64
    ensures { result ≡ field_of b }
{
    b % SIGN / LEADING
}

// Whether an exponent field is far from both ends.
pub fn is_middle(x: u64) -> bool
    ensures { IsTrue result ↔ Middle x }
{
    600 <= x && x < 1500
}

// Twice the pattern of an infinity, without the sign.
const TWICE_INFINITY: u64 = 0xffe0000000000000;

// Whether b is finite and not zero.
pub fn is_regular(b: u64) -> bool
    ensures { IsTrue result ↔ Regular b }
{
    // The shift drops the sign; a mask takes two instructions more.
    let twice = b << 1;
    twice != 0 && twice < TWICE_INFINITY
}

// The fraction of a subnormal number, shifted up to 53 digits.
fn read_subnormal(fraction: u64) -> Parts
    requires { (0 < fraction) × (fraction < 2 ^ 52) }
    ensures { result.m * 2 ^ result.e ≡ fraction * 2 ^ 52 }
{
    let z = u64::leading_zeros(fraction) as u64 - 11;
    Parts {
        m: fraction << z,
        e: 52 - z,
    }
}

pub fn read(b: u64) -> Parts
    requires { Regular b }
    ensures { Reads b result }
{
    let field = field(b);
    let fraction = b % LEADING;
    if field == 0 {
        return read_subnormal(fraction);
    }
    Parts {
        m: LEADING + fraction,
        e: field + 51,
    }
}

// A size in two words, and the sign of the number that has it.
#[derive(Clone, Copy)]
pub struct Signed {
    pub neg: bool,
    pub size: Wide,
}

// The sum of two. The sum of the sizes and both differences are made, and one of them is picked: the signs and the order of random
// operands would be mispredicted as branches. The highest bit of a difference tells that the first is under the second.
pub fn add_signed(x: Signed, y: Signed) -> Signed
    requires { (value x.size < 2 ^ 127) × (value y.size < 2 ^ 127) }
    ensures { SumOf x.neg y.neg (value x.size) (value y.size) result.neg (value result.size) }
{
    let sum = wide::add(x.size, y.size);
    let up = wide::sub(y.size, x.size);
    let down = wide::sub(x.size, y.size);
    let under = SIGN <= down.hi;
    let rest = wide::pick(under, up, down);
    Signed {
        neg: wide::pick(under, y.neg, x.neg),
        size: wide::pick(x.neg == y.neg, sum, rest),
    }
}
