// Runs: the whole frames at a piece's front, answered where they stand. They need no present frame.
//
// answer_run promises what Answers of specs/Runs.antt says: the bytes used are whole frames, one after another, and their answers stand
// in that order at the buffer's front.
#![tactic(auto)]

ghost use Rattle.runs.specs.Runs.{Answers};

use frames::{ANSWER_ROOM, Kind};
use memory::View;

// A run of whole frames: what is shown after it, its bytes, and the bytes of the answers to it.
#[derive(Clone, Copy)]
pub struct Run {
    pub view: View,
    pub used: usize,
    pub len: usize,
}

// Answers the whole frames at the piece's front while there is room for one more answer. They are read where they stand: a state for
// each of them would be copied several times. Frames are counted here, and added where a report asks for it, and respond is called for
// reports and sheets alone: what is shown goes through memory then, which takes longer than a refusal.
pub fn answer_run(view: View, piece: &[u8], answers: &mut [u8]) -> Run
    ensures { Answers view piece.now result answers.old answers.new }
{
    let mut view = view;
    let mut accepted = 0;
    let mut refused = 0;
    let mut used = 0;
    let mut len = 0;
    while 2 <= piece.len() - used {
        let n = usize::from(words::read_u16(piece, used));
        let from = used + 2;
        if answers.len() - len < ANSWER_ROOM || piece.len() - from < n {
            break;
        }
        let to = from + n;
        let body = &piece[from..to];
        match frames::refusal_to(n, body) {
            Err(refusal) => {
                len += frames::write_refusal(refusal.number(), &mut answers[len..]);
                refused += 1;
            }
            Ok(Kind::Report | Kind::Sheet) => {
                view = memory::add(view, accepted, refused);
                accepted = 0;
                refused = 0;
                let answered = memory::respond(view, n, body, &mut answers[len..]);
                view = answered.view;
                len += answered.len;
            }
            Ok(_) => {
                len += answers::write_answer(n, body, &mut answers[len..]);
                accepted += 1;
            }
        }
        used = to;
    }
    Run {
        view: memory::add(view, accepted, refused),
        used,
        len,
    }
}
