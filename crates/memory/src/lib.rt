// What lasts from frame to frame, as the state shows it, and the answer to a whole frame, which may show it and goes into it.
//
// The contracts are equations with the definitions of specs/Memory.antt.
#![tactic(auto)]

ghost use Rattle.std.specs.Prelude.{◌≡◌, ◌≤◌, length};
ghost use Rattle.frames.specs.Frame.{answer_room};
ghost use Rattle.frames.specs.Body.{Body};
ghost use Rattle.frames.specs.Numbers.{numbered};
ghost use Rattle.memory.specs.Memory.{start_memory, view_of, is_view, view_added};
ghost use Rattle.memory.specs.Answers.{Answers};

use counts::Counts;
use frames::{Kind, Refusal};

// A field for each thing that lasts.
#[repr(C)]
#[derive(Clone, Copy, PartialEq, Eq)]
pub struct View {
    pub counts: Counts,
}

// What is shown after an answer that was written, its length, and the frame's kind or what refused it.
#[derive(Clone, Copy)]
pub struct Answered {
    pub view: View,
    pub len: usize,
    pub outcome: Result<Kind, Refusal>,
}

// The number of an outcome: that of the refusal, or 0.
pub fn number(outcome: Result<Kind, Refusal>) -> u8
    ensures { result ≡ numbered outcome }
{
    match outcome {
        Ok(_) => 0,
        Err(refusal) => refusal.number(),
    }
}

pub fn start() -> View
    ensures { result ≡ view_of start_memory }
{
    View {
        counts: counts::none(),
    }
}

pub fn is_view(view: View) -> bool
    ensures { result ≡ is_view view }
{
    counts::is_sum(view.counts)
}

// Answers a whole frame with a body of n bytes. Where n is 2 to 514, body is that body; another length is refused by itself.
pub fn respond(view: View, n: usize, body: &[u8], answer: &mut [u8]) -> Answered
    requires { Body n body.now × (answer_room ≤ length answer.old) }
    ensures { Answers view n body.now result answer.old answer.new }
{
    let outcome = frames::refusal_to(n, body);
    let counts = counts::counted(view.counts, number(outcome));
    let len = match outcome {
        Err(refusal) => frames::write_refusal(refusal.number(), answer),
        Ok(Kind::Report) => answers::write_report(view.counts, answer),
        Ok(Kind::Sheet) => answers::write_sheet(n, body, answer),
        Ok(_) => answers::write_answer(n, body, answer),
    };
    Answered {
        view: View { counts },
        len,
        outcome,
    }
}

// What is shown with so many accepted and refused frames more, none of them a report.
pub fn add(view: View, accepted: u64, refused: u64) -> View
    ensures { result ≡ view_added accepted refused view }
{
    View {
        counts: counts::add(view.counts, accepted, refused),
    }
}
