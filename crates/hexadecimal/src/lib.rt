// Hexadecimal floats as text (document 02, A.1): the value of a digit, and the test of a text's form byte by byte. What the form is, and
// what a text of it is worth, is defined in specs/Text.antt; specs/Form.antt states that the test decides the form.
#![tactic(auto)]

ghost use Rattle.std.specs.Prelude.{◌≡◌, ◌<◌, SomeIff};
ghost use Rattle.hexadecimal.specs.Text.{digit_of, is_hexadecimal, is_decimal};
ghost use Rattle.hexadecimal.specs.Test.{next_stage, is_last};

// What of the form has been read.
#[derive(Clone, Copy, PartialEq, Eq)]
pub enum Stage {
    Start,
    Signed,
    Zero,
    Prefix,
    // A digit, and no point.
    Whole,
    // A point, and no digit.
    LonePoint,
    // Digits, and then a point.
    Point,
    // A digit after the point.
    Fraction,
    P,
    ExponentSigned,
    Exponent,
    // No text that starts so has the form.
    Malformed,
}

// The value of a digit. A letter is 64 and more, and its last four bits count from 1 on: no digit's value asks which of the two it is, since a
// text may have them in any order.
#[tactic(auto, unfolding(crate::specs::Text::digit_of))]
pub fn digit(b: u8) -> Option<u32>
    ensures { SomeIff result (digit_of b < 16) (digit_of b) }
{
    b.is_ascii_hexdigit()
        .then_some(u32::from(b % 16 + b / 64 * 9))
}

impl Stage {
    // The stage after one more byte.
    #[tactic(auto, unfolding(crate::specs::Test::next_stage, crate::specs::Text::digit_of))]
    pub fn next(self, b: u8) -> Stage
        ensures { result ≡ next_stage self b }
    {
        let digit = b.is_ascii_hexdigit();
        match (self, b) {
            (Stage::Start, b'+' | b'-') => Stage::Signed,
            (Stage::Start | Stage::Signed, b'0') => Stage::Zero,
            (Stage::Zero, b'x' | b'X') => Stage::Prefix,
            (Stage::Prefix | Stage::Whole, _) if digit => Stage::Whole,
            (Stage::Prefix, b'.') => Stage::LonePoint,
            (Stage::Whole, b'.') => Stage::Point,
            (Stage::LonePoint | Stage::Point | Stage::Fraction, _) if digit => Stage::Fraction,
            (Stage::Whole | Stage::Point | Stage::Fraction, b'p' | b'P') => Stage::P,
            (Stage::P, b'+' | b'-') => Stage::ExponentSigned,
            (Stage::P | Stage::ExponentSigned | Stage::Exponent, b'0'..=b'9') => Stage::Exponent,
            _ => Stage::Malformed,
        }
    }

    // Whether a text of the form may end here.
    pub fn is_last(self) -> bool
        ensures { result ≡ is_last self }
    {
        self == Stage::Exponent
    }
}
