// Constants as text (document 02, A.1): C23 hexadecimal floats, read exactly or refused.
//
// constant promises the reply that specs/Constant.antt defines, for every text; nothing is rounded. A text is read byte by byte, so that
// one which comes in pieces is read by read_on and finish, in the same memory however long it is (specs/Machine.antt).
#![tactic(auto)]

ghost use Rattle.std.specs.Prelude.{◌≡◌, ℕ, ◌+◌, ◌-◌, ◌≤◌, ◌<◌, length};
ghost use Rattle.reply.specs.Told.{numbered};
ghost use Rattle.constant.specs.Constant.{exactly, constant_of};
ghost use Rattle.constant.specs.Machine.{refusal_of, with_digit, with_decimal, pushed, read_from, unread, Within, most_places, Holds, Finishes, whole_bits, RepliesBits, RepliesPlaced};

use hexadecimal::{Stage, digit};
use reply::Refusal;
use rounding::{LEADING, sign_bit};

// Why a text stands for no float.
#[derive(Clone, Copy, Debug, PartialEq, Eq)]
pub enum ConstantError {
    // The text has not the form.
    BadText = 9,
    // The value is not exactly a finite binary64.
    Inexact = 10,
}

impl Refusal for ConstantError {
    ghost number = { refusal_of };

    fn number(self) -> u8 {
        self as u8
    }
}

// Below it there is room for one more digit in 60 bits.
const ROOM: u64 = 0x100000000000000;

const MOST: u64 = 18446744073709551610;

// Below it ten times a quotient is below MOST.
const MOST_TENTH: u64 = 1844674407370955161;

// A number's leading digits: it is value * 16^raised / 16^lowered, and a little more where a digit other than 0 is lost, which is then kept
// in lost. Here and in a Power there are words alone: a smaller field would have padding behind it, and each byte of a text would copy it.
#[derive(Clone, Copy)]
pub struct Significand {
    pub value: u64,
    pub raised: u64,
    pub lowered: u64,
    pub lost: u64,
}

impl Significand {
    // One more digit, before or after the point.
    #[tactic(auto, unfolding(crate::specs::Machine::with_digit))]
    fn push(&mut self, digit: u32, after: bool)
        requires { (digit < 16) × (self.old.raised + self.old.lowered < most_places) }
        ensures { self.new ≡ with_digit self.old digit after }
    {
        if self.value < ROOM {
            self.value = self.value * 16 + u64::from(digit);
            self.lowered += u64::from(after);
        } else {
            self.raised += u64::from(!after);
            if digit != 0 {
                self.lost = u64::from(digit);
            }
        }
    }
}

// An exponent, as 4 * quotient + remainder: four times a place of a long text would not fit a word. A quotient beyond MOST stays there.
#[derive(Clone, Copy)]
pub struct Power {
    pub quotient: u64,
    pub remainder: u64,
}

impl Power {
    // One more decimal digit.
    #[tactic(auto, unfolding(crate::specs::Machine::with_decimal))]
    fn push(&mut self, digit: u32)
        requires { (digit < 16) × (self.old.remainder ≤ 3) }
        ensures { self.new ≡ with_decimal self.old digit }
    {
        let rest = self.remainder * 10 + u64::from(digit);
        self.quotient = if self.quotient < MOST_TENTH {
            self.quotient * 10 + rest / 4
        } else {
            MOST
        };
        self.remainder = rest % 4;
    }
}

// What has been read of a text.
#[derive(Clone, Copy)]
pub struct Reading {
    pub stage: Stage,
    pub negative: bool,
    // Whether the power of two divides.
    pub inverse: bool,
    pub significand: Significand,
    pub power: Power,
}

impl Reading {
    // Before the first byte.
    pub fn fresh() -> Self
        ensures { result ≡ unread }
    {
        Reading {
            stage: Stage::Start,
            negative: false,
            inverse: false,
            significand: Significand {
                value: 0,
                raised: 0,
                lowered: 0,
                lost: 0,
            },
            power: Power {
                quotient: 0,
                remainder: 0,
            },
        }
    }

    #[tactic(auto, unfolding(crate::specs::Machine::pushed, crate::specs::Machine::moved_to))]
    fn push(&mut self, b: u8)
        requires { Within (most_places - 1) self.old }
        ensures { self.new ≡ pushed self.old b }
    {
        self.stage = self.stage.next(b);
        match self.stage {
            Stage::Signed => self.negative = b == b'-',
            Stage::Whole => self.significand.push(digit(b).unwrap(), false),
            Stage::Fraction => self.significand.push(digit(b).unwrap(), true),
            Stage::ExponentSigned => self.inverse = b == b'-',
            Stage::Exponent => self.power.push(digit(b).unwrap()),
            _ => {}
        }
    }

    // Reads the next piece of a text.
    pub fn read_on(mut self, piece: &[u8]) -> Self
        requires { Within (most_places - length piece.now) self }
        ensures { result ≡ read_from self piece.now }
    {
        for b in piece {
            self.push(*b);
        }
        self
    }

    // The float whose sign and size these are. -(4 * q + r) is 4 * -(q + 1) + (4 - r).
    fn value(self) -> Result<u64, ConstantError>
        requires { Within most_places self }
        ensures { (num den : ℕ) → Holds self.significand self.power self.inverse num den → numbered refusal_of result ≡ exactly self.negative num den }
    {
        let Significand {
            value,
            raised,
            lowered,
            lost,
        } = self.significand;
        let Power {
            quotient,
            remainder,
        } = self.power;
        if value == 0 {
            return Ok(sign_bit(self.negative));
        }
        if lost != 0 {
            return Err(ConstantError::Inexact);
        }
        if self.inverse {
            if raised + LOWEST < quotient {
                return Err(ConstantError::Inexact);
            }
            return placed(
                self.negative,
                value,
                4 - remainder,
                raised,
                lowered + quotient + 1,
            );
        }
        if lowered + HIGHEST < quotient {
            return Err(ConstantError::Inexact);
        }
        placed(self.negative, value, remainder, raised + quotient, lowered)
    }

    // The reply to the text that has been read.
    pub fn finish(self) -> Result<u64, ConstantError>
        requires { Within most_places self }
        ensures { Finishes self (numbered refusal_of result) }
    {
        if self.stage.is_last() {
            self.value()
        } else {
            Err(ConstantError::BadText)
        }
    }
}

fn whole_bits(negative: bool, w: u64, k: u64, s: u64) -> Result<u64, ConstantError>
    requires { (k ≤ 2045) × (11 ≤ s) × (s ≤ 63) }
    ensures { numbered refusal_of result ≡ whole_bits negative w k s }
{
    if w % (1 << s) == 0 {
        Ok(sign_bit(negative) + (k * LEADING + (w >> s)))
    } else {
        Err(ConstantError::Inexact)
    }
}

// m * 2^e in units of 2^-1136. Its digits fill a word, w. A normal number has 53 of them, and a subnormal one ends at 2^-1074.
fn exact_bits(negative: bool, m: u64, e: u64) -> Result<u64, ConstantError>
    requires { (0 < m) × (e ≤ 2164) }
    ensures { RepliesBits negative m e (numbered refusal_of result) }
{
    let z = m.leading_zeros() as u64;
    let w = m << z;
    if z + 51 <= e {
        let k = e - z - 51;
        if 2045 < k {
            return Err(ConstantError::Inexact);
        }
        return whole_bits(negative, w, k, 11);
    }
    let s = z + 62 - e;
    if 63 < s {
        return Err(ConstantError::Inexact);
    }
    whole_bits(negative, w, 0, s)
}

// With more places than these, no value of 60 bits is a finite float.
const LOWEST: u64 = 284;

const HIGHEST: u64 = 256;

// m * 2^t * 16^above / 16^below.
fn placed(negative: bool, m: u64, t: u64, above: u64, below: u64) -> Result<u64, ConstantError>
    requires { (0 < m) × (m ≤ 0x1000000000000000) × (t ≤ 4) × (above ≤ most_places + 300) × (below ≤ most_places + 300) }
    ensures { RepliesPlaced negative m t above below (numbered refusal_of result) }
{
    if above + LOWEST < below {
        return Err(ConstantError::Inexact);
    }
    if below + HIGHEST < above {
        return Err(ConstantError::Inexact);
    }
    exact_bits(negative, m, 4 * (above + LOWEST - below) + t)
}

pub fn constant(text: &[u8]) -> Result<u64, ConstantError>
    ensures { numbered refusal_of result ≡ constant_of text.now }
{
    Reading::fresh().read_on(text).finish()
}
