// Runs the vectors of standard input through the parts of the score: a line for each failure, and then the count.
//
// A vector is a phase that gives a pair and `X HI LO`, or a table of step 8 and `X WANT`, bit patterns of floats. The phases are
// `exp2m1_fast_tiny` and `polynomial_q` for any x, and for 1/8 <= x <= 1024 and -54 <= x <= -1/8 `exp_1`, of x * log(2), and `exp_2`. The
// tables are `table_of_59` and `table_of_93`, and x is one of theirs.
#![tactic(auto)]

ghost use Rattle.std.specs.Prelude.{◌≡◌, true};
ghost use Rattle.exponential.specs.Range.{InRange};

use exceptions::Stretch;
use exponential::{LN2H, LN2L};
use pair::Pair;
use vectors::Answer;

// What a line's phase or table gives for its first number, of which the others are wanted.
fn answer(line: &[u8]) -> Option<Answer> {
    match vectors::name_of(line) {
        b"table_of_59" => table(Stretch::Tiny, line),
        b"table_of_93" => table(Stretch::Wide, line),
        name => {
            let [x, hi, lo] = vectors::numbers_of::<3>(line)?;
            let pair = phase(name, math::from_bits(x))?;
            Some(compare(pair, hi, lo))
        }
    }
}

fn table(stretch: Stretch, line: &[u8]) -> Option<Answer> {
    let [x, want] = vectors::numbers_of::<2>(line)?;
    let reply = exceptions::exception(stretch, math::from_bits(x))?;
    let got = math::to_bits(reply);
    Some(Answer { got, want })
}

fn phase(name: &[u8], x: f64) -> Option<Pair> {
    match name {
        b"exp2m1_fast_tiny" => Some(exp2m1_tiny::exp2m1_fast_tiny(x).pair),
        b"polynomial_q" => Some(exp2m1_tiny::polynomial_q(x)),
        b"exp_1" if is_in_range(x) => Some(fast_power(x)),
        b"exp_2" if is_in_range(x) => Some(exponential::exp_2(x)),
        _ => None,
    }
}

// Whether x is one that the powers take.
fn is_in_range(x: f64) -> bool
    ensures { result ≡ true → InRange x }
{
    0.125 <= x && x <= 1024.0 || 0.125 <= -x && -x <= 54.0
}

// exp_1 as the fast phase calls it.
fn fast_power(x: f64) -> Pair
    requires { InRange x }
{
    let p = double_double::s_mul(x, Pair { hi: LN2H, lo: LN2L });
    exponential::exp_1(p)
}

// The first part of a pair that is not the one wanted, or else its lo.
fn compare(p: Pair, hi: u64, lo: u64) -> Answer {
    let got = math::to_bits(p.hi);
    if got == hi {
        return Answer {
            got: math::to_bits(p.lo),
            want: lo,
        };
    }
    Answer { got, want: hi }
}

fn main(rt: HostRuntime) {
    vectors::run(&rt, &mut rt.stdin(), answer);
}
