// Runs the vectors of standard input through the four operations that ieee754 defines: a line for each failure, and
// then the count.
//
// A vector is `fused A B C WANT`, to nearest, or with fused_toward_zero, fused_up or fused_down in its place; `round X WANT`,
// `floor X WANT` or `scale X N WANT`. Floats are bit patterns, and N is the two's complement of 32 bits.
#![tactic(auto)]

use vectors::Answer;

// The byte of the direction that a name of fused has.
fn direction_of(name: &[u8]) -> Option<u8> {
    match name {
        b"fused" => Some(0),
        b"fused_toward_zero" => Some(1),
        b"fused_up" => Some(2),
        b"fused_down" => Some(3),
        _ => None,
    }
}

// What a line's operation gives for its numbers, of which the last is the one wanted.
fn answer(line: &[u8]) -> Option<Answer> {
    match vectors::name_of(line) {
        b"round" => {
            let [x, want] = vectors::numbers_of::<2>(line)?;
            let got = integral::round(x);
            Some(Answer { got, want })
        }
        b"floor" => {
            let [x, want] = vectors::numbers_of::<2>(line)?;
            let got = integral::floor(x);
            Some(Answer { got, want })
        }
        b"scale" => {
            let [x, n, want] = vectors::numbers_of::<3>(line)?;
            let n = u32::try_from(n).ok()?;
            let got = scaling::scale(x, n.cast_signed());
            Some(Answer { got, want })
        }
        name => {
            let direction = direction_of(name)?;
            let [a, b, c, want] = vectors::numbers_of::<4>(line)?;
            let got = multiply_add::fused(direction, a, b, c).ok()?;
            Some(Answer { got, want })
        }
    }
}

fn main(rt: HostRuntime) {
    vectors::run(&rt, &mut rt.stdin(), answer);
}
