// The framed service: fresh, take and close.
//
// Each call goes through for every state, piece and buffer, and promises by an equation all that it returns and every byte of the
// buffer after it: take_of and close_of of specs/Service.antt, which go by document 01's plain book (specs/Book.antt).
// The crate demands states demands 1 and 3 over whole lists of calls, and proves them.
#![tactic(auto)]

ghost use Rattle.std.specs.Prelude.{◌≡◌, false, ◌≤◌, length};
ghost use Rattle.frames.specs.Frame.{answer_room, whole};
ghost use Rattle.partial_frame.specs.State.{empty_frame, length_in};
ghost use Rattle.memory.specs.Answers.{Answers};
ghost use Rattle.service.specs.Book.{state_with, state_of};
ghost use Rattle.service.specs.Service.{fresh_state, is_good, book_of, take_of, close_of, taken_of, closed_of};
ghost use Rattle.service.specs.Whole.{Whole, body_in};
ghost use Rattle.service.specs.Refusals.{number_of, checked};

use frames::ANSWER_ROOM;
use memory::{Answered, View};
use partial_frame::PartialFrame;

// Why a call is refused, by the refusal's number: what its caller brings about, and the end of the stream inside a frame.
#[derive(Clone, Copy, Debug, PartialEq, Eq)]
pub enum Refusal {
    SmallBuffer = 6,
    BadState = 7,
    Unfinished = 8,
}

impl Refusal {
    pub fn number(self) -> u8
        ensures { result ≡ number_of self }
    {
        self as u8
    }
}

// All that the service knows between calls. Any value may be handed over.
#[repr(C)]
#[derive(Clone, Copy, PartialEq, Eq)]
pub struct State {
    pub frame: PartialFrame,
    pub view: View,
}

// What take returns; the refusal is a number or 0.
#[repr(C)]
#[derive(Clone, Copy)]
pub struct Taken {
    pub state: State,
    pub used: usize,
    pub len: usize,
    pub refusal: u8,
}

// What close returns.
#[repr(C)]
#[derive(Clone, Copy)]
pub struct Closed {
    pub state: State,
    pub len: usize,
    pub refusal: u8,
}

impl State {
    // Between frames.
    pub fn between(view: View) -> State
        ensures { result ≡ state_with empty_frame view }
    {
        State {
            frame: PartialFrame::empty(),
            view,
        }
    }

    // Whether some book leaves the state.
    #[tactic(auto, unfolding(crate::specs::Service::is_good))]
    pub fn is_good(&self) -> bool
        ensures { result ≡ is_good self.now }
    {
        self.frame.is_left() && memory::is_view(self.view)
    }

    // Whether a call with an answer buffer of so many bytes goes through.
    pub fn check(&self, room: usize) -> Result<(), Refusal>
        ensures { result ≡ checked self.now room }
    {
        if room < ANSWER_ROOM {
            return Err(Refusal::SmallBuffer);
        }
        if !self.is_good() {
            return Err(Refusal::BadState);
        }
        Ok(())
    }
}

pub fn fresh() -> State
    ensures { result ≡ fresh_state }
{
    State::between(memory::start())
}

// Answers the frame that is whole.
fn answer_whole(view: View, frame: &PartialFrame, answer: &mut [u8]) -> Answered
    requires { Whole frame.now × (answer_room ≤ length answer.old) }
    ensures { Answers view (length_in frame.now) (body_in frame.now) result answer.old answer.new }
{
    memory::respond(
        view,
        frame.body_length(),
        &frame.body[..frame.filled_places()],
        answer,
    )
}

// take, where neither 6 nor 7 refuses it.
fn take_good(mut state: State, piece: &[u8], answer: &mut [u8]) -> Taken
    requires { (state ≡ state_of (book_of state)) × (whole (book_of state).held ≡ false) × (answer_room ≤ length answer.old) }
    ensures { (result ≡ taken_of (take_of state piece.now answer.old)) × (answer.new ≡ (take_of state piece.now answer.old).buffer) }
{
    let used = pieces::take_bytes(&mut state.frame, piece);
    if !state.frame.is_whole() {
        return Taken {
            state,
            used,
            len: 0,
            refusal: 0,
        };
    }
    let answered = answer_whole(state.view, &state.frame, answer);
    Taken {
        state: State::between(answered.view),
        used,
        len: answered.len,
        refusal: memory::number(answered.outcome),
    }
}

// Uses bytes up to the end of the first frame that ends in the piece, or all of it, and answers a frame that ended.
pub fn take(state: State, piece: &[u8], answer: &mut [u8]) -> Taken
    ensures { (result ≡ taken_of (take_of state piece.now answer.old)) × (answer.new ≡ (take_of state piece.now answer.old).buffer) }
{
    match state.check(answer.len()) {
        Ok(()) => take_good(state, piece, answer),
        Err(refusal) => Taken {
            state,
            used: 0,
            len: 0,
            refusal: refusal.number(),
        },
    }
}

// Ends the stream: an unfinished frame is refused, and the service is fresh but for what lasts.
pub fn close(state: State, answer: &mut [u8]) -> Closed
    ensures { (result ≡ closed_of (close_of state answer.old)) × (answer.new ≡ (close_of state answer.old).buffer) × (result.len ≤ length answer.old) }
{
    if let Err(refusal) = state.check(answer.len()) {
        return Closed {
            state,
            len: 0,
            refusal: refusal.number(),
        };
    }
    let after = State::between(state.view);
    if state.frame.count == 0 {
        return Closed {
            state: after,
            len: 0,
            refusal: 0,
        };
    }
    let refusal = Refusal::Unfinished.number();
    Closed {
        state: after,
        len: frames::write_refusal(refusal, answer),
        refusal,
    }
}
