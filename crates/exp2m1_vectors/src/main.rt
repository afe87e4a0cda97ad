// Runs the vectors of standard input through the score: a line for each failure, and then the count.
//
// A vector is `score X WANT`, both bit patterns of floats.
#![tactic(auto)]

use vectors::Answer;

// The score of a line's first number, of which the second is wanted.
fn answer(line: &[u8]) -> Option<Answer> {
    match vectors::name_of(line) {
        b"score" => {
            let [x, want] = vectors::numbers_of::<2>(line)?;
            let got = exp2m1::score(x);
            Some(Answer { got, want })
        }
        _ => None,
    }
}

fn main(rt: HostRuntime) {
    vectors::run(&rt, &mut rt.stdin(), answer);
}
