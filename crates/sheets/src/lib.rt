// Household sheets: the lines of a payload, 9 bytes each, and the refusals by which the first bad line decides.
//
// The contracts are equations with the definitions of specs/Sheet.antt, for every payload. The values of the lines are in the crate
// sheet_values: nothing here computes with floats.
#![tactic(auto)]

ghost use Rattle.std.specs.Prelude.{◌≡◌, ◌+◌, ◌≤◌, length, take, drop};
ghost use Rattle.sheets.specs.Sheet.{all_zero, line_at, sheet_numbered, refusal_of, sheet_refusal};

// The bytes of a line.
pub const LINE_BYTES: usize = 9;

// A line: a weight, or the numbers of two lines whose values are added.
#[derive(Clone, Copy, Debug, PartialEq, Eq)]
pub enum Line {
    Weight(u64),
    Sum(u8, u8),
}

// Why a line is bad: it has neither form, or it names its own number or a greater one.
#[derive(Clone, Copy, Debug, PartialEq, Eq)]
pub enum BadLine {
    Form,
    Number,
}

// Whether six bytes from a place on are zero.
#[tactic(auto, using(crate::proofs::Lines::filler_first, crate::proofs::Lines::filler_last))]
fn is_filler(payload: &[u8], at: usize) -> bool
    requires { at + 6 ≤ length payload.now }
    ensures { result ≡ all_zero (take 6 (drop at payload.now)) }
{
    words::read_u16(payload, at) == 0 && words::read_u32(payload, at + 2) == 0
}

// The line at a place of a payload, if it has one of the two forms.
#[tactic(auto, unfolding(crate::specs::Sheet::line_at))]
pub fn line_at(payload: &[u8], at: usize) -> Option<Line>
    requires { at + 9 ≤ length payload.now }
    ensures { result ≡ line_at payload.now at }
{
    match payload[at] {
        0 => Some(Line::Weight(words::read_u64(payload, at + 1))),
        1 if is_filler(payload, at + 3) => Some(Line::Sum(payload[at + 1], payload[at + 2])),
        _ => None,
    }
}

// Whether line i is good.
#[tactic(auto, unfolding(crate::specs::Sheet::refusal_of))]
fn check_line(i: usize, line: Option<Line>) -> Result<(), BadLine>
    ensures { sheet_numbered result ≡ refusal_of i line }
{
    match line {
        Some(Line::Weight(_)) => Ok(()),
        Some(Line::Sum(first, second)) => {
            if (first as usize) < i && (second as usize) < i {
                Ok(())
            } else {
                Err(BadLine::Number)
            }
        }
        None => Err(BadLine::Form),
    }
}

// Whether all lines of a sheet are good; the first bad one decides.
pub fn refusal(payload: &[u8]) -> Result<(), BadLine>
    ensures { sheet_numbered result ≡ sheet_refusal payload.now }
{
    for i in 0..payload.len() / LINE_BYTES {
        check_line(i, line_at(payload, i * LINE_BYTES))?;
    }
    Ok(())
}
