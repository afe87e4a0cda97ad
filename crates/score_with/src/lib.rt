// The score with a lent list of exceptional cases (request A.4): document 01's steps with the list in place of the first table.
//
// score_with promises, for every list and 64-bit pattern, what scored_with of specs/Score.antt gives: the list's refusal, or the score. What
// is decided of the list's entries stands in exception_list.
#![tactic(auto)]

ghost use Rattle.std.specs.Prelude.{◌≡◌};
ghost use Rattle.reply.specs.Told.{numbered};
ghost use Rattle.exception_list.specs.List.{number_of};
ghost use Rattle.score_with.specs.Score.{scored_with};

use exception_list::ListError;
use exceptions::Entry;

// The score of the weight with the bits x, with the list in step 5.
pub fn score_with(list: &[Entry], x: u64) -> Result<u64, ListError>
    ensures { numbered number_of result ≡ scored_with list.now x }
{
    exception_list::check(list)?;
    let found = exception_list::lookup(list, math::from_bits(x));
    Ok(exp2m1::score_found(x, found))
}
