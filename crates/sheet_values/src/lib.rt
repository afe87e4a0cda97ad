// The values of a household sheet's lines, each from those of earlier lines, written into a buffer.
//
// The contracts are equations with the definitions of specs/Values.antt.
#![tactic(auto)]

ghost use Rattle.std.specs.Prelude.{◌≡◌, ◌++◌, ◌*◌, ◌≤◌, length, drop};
ghost use Rattle.words.specs.Bytes.{words_of};
ghost use Rattle.sheets.specs.Sheet.{refusal_of};
ghost use Rattle.sheet_values.specs.Values.{value_from, value_of};
ghost use Rattle.sheet_values.specs.Lines.{GoodLines, Words};

use sheets::{LINE_BYTES, Line};

// The most lines that a payload of 512 bytes has.
const MOST_LINES: usize = 56;
// The bytes of their values.
pub const VALUES: usize = 448;

// The value of line i, which is not refused, from those of the lines before it.
#[tactic(auto, using(sheets::proofs::Lines::names_earlier), unfolding(crate::specs::Values::value_from))]
fn value_of(i: usize, line: Line, before: &[u64; MOST_LINES]) -> u64
    requires { (refusal_of i (Some line) ≡ 0) × (i ≤ 56) }
    ensures { result ≡ value_from before.now (Some line) }
{
    match line {
        Line::Weight(x) => x,
        Line::Sum(first, second) => sums::sum(before[first as usize], before[second as usize]),
    }
}

// Writes the values of the first n lines, none of which is refused.
pub fn write_values(payload: &[u8], n: usize, out: &mut [u8])
    requires { GoodLines n payload.now × (n * 9 ≤ length payload.now) × (8 * n ≤ length out.old) }
    ensures { (out.new ≡ words_of (value_of payload.now) n ++ drop (8 * n) out.old) × Words n payload.now }
{
    let mut values = [0u64; MOST_LINES];
    for i in 0..n {
        let line = sheets::line_at(payload, i * LINE_BYTES).unwrap();
        let value = value_of(i, line, &values);
        values[i] = value;
        words::write_u64(&mut out[8 * i..], value);
    }
}
