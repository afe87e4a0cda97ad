// Handing a piece on: take is repeated on its unused end, and the answers stand one after another in one buffer.
//
// hand_on promises what Delivers of specs/Delivery.antt says: the bytes used, the answers, the state and the buffer are those of the
// plain book, taken again and again while there is room for an answer. A nonempty piece that is not refused is used in part at least.
// The crate streams states demand 3 for pieces that are handed on and for whole streams, and proves it.
#![tactic(auto)]

ghost use Rattle.std.specs.Prelude.{◌≡◌, false, length};
ghost use Rattle.frames.specs.Frame.{whole};
ghost use Rattle.service.specs.Book.{state_of};
ghost use Rattle.service.specs.Service.{book_of};
ghost use Rattle.delivery.specs.Delivery.{Delivers, Delivery, delivery_of};

use frames::ANSWER_ROOM;
use service::State;

// The state, the bytes of the piece that were used, the bytes of answers at the buffer's front, and refusal 6, 7 or 0.
#[repr(C)]
#[derive(Clone, Copy)]
pub struct HandedOn {
    pub state: State,
    pub used: usize,
    pub len: usize,
    pub refusal: u8,
}

// Takes frames off the piece's front until it is used up, or until there is no room for one more answer. The whole frames behind one
// that ended are answered as a run, so that take has only those that begin or end in another piece.
fn take_frames(state: State, piece: &[u8], answers: &mut [u8]) -> HandedOn
    requires { (state ≡ state_of (book_of state)) × (whole (book_of state).held ≡ false) }
    ensures { Delivery (delivery_of (book_of state) piece.now (length answers.old)) result answers.old answers.new }
{
    let mut state = state;
    let mut used = 0;
    let mut len = 0;
    while used < piece.len() {
        if answers.len() - len < ANSWER_ROOM {
            break;
        }
        let taken = service::take(state, &piece[used..], &mut answers[len..]);
        state = taken.state;
        used += taken.used;
        len += taken.len;
        if 0 < taken.len && used < piece.len() {
            let run = runs::answer_run(state.view, &piece[used..], &mut answers[len..]);
            state = State::between(run.view);
            used += run.used;
            len += run.len;
        }
    }
    HandedOn {
        state,
        used,
        len,
        refusal: 0,
    }
}

pub fn hand_on(state: State, piece: &[u8], answers: &mut [u8]) -> HandedOn
    ensures { Delivers state piece.now answers.old result answers.new }
{
    match state.check(answers.len()) {
        Ok(()) => take_frames(state, piece, answers),
        Err(refusal) => HandedOn {
            state,
            used: 0,
            len: 0,
            refusal: refusal.number(),
        },
    }
}
