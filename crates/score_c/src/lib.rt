// The score for C, declared in include/weigher.h. Each function has the contract of the one it calls, for every argument. C has no enum with
// values: a reply of score_with is the number that is returned, 0 where there is a score, and the score behind the pointer (specs/Told.antt
// of reply).
#![tactic(auto)]

ghost use Rattle.std.specs.Prelude.{◌≡◌};
ghost use Rattle.reply.specs.Told.{number, content};
ghost use Rattle.exp2m1.specs.Score.{score_bits};
ghost use Rattle.score_with.specs.Score.{scored_with};

use exceptions::Entry;

// 2^x - 1, the score of the weight x.
#[unsafe(no_mangle)]
pub extern "C" fn weigher_score(x: u64) -> u64
    ensures { result ≡ score_bits x }
{
    exp2m1::score(x)
}

// Scores the weight x with a lent list of exceptional cases. Where the list is refused, the result keeps its content.
#[unsafe(no_mangle)]
pub extern "C" fn weigher_score_with(list: &[Entry], x: u64, out: &mut u64) -> u8
    ensures number { result ≡ number (scored_with list.now x) }
    ensures content { out.new ≡ content (scored_with list.now x) out.old }
{
    reply::tell(score_with::score_with(list, x), out)
}
