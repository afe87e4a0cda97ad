// Replays the stream of standard input: it is read whole and handed on in pieces of 1, 2, 3 and more bytes, with the smallest answer
// buffer that is not refused, so that each call answers one frame at most. The answers are written as they come.
#![tactic(auto)]

use service::State;

// Document 01: "buffer 516 works, 515: 6".
const BUFFER: usize = 516;

// After a piece of this length the next one has one byte again.
const LONGEST_PIECE: usize = 1000;

// The end of the stream: an unfinished frame is refused.
fn finish<P: Print>(rt: &P, state: State) {
    let mut answer = [0u8; BUFFER];
    let closed = service::close(state, &mut answer);
    let _ = rt.write_all(&answer[..closed.len]);
}

#[tactic(auto, using(service::proofs::Calls::fresh_good))]
fn replay<P: Print>(rt: &P, stream: &[u8]) {
    let mut answer = [0u8; BUFFER];
    let mut state = service::fresh();
    let mut rest = stream;
    let mut size = 1;
    while !rest.is_empty() {
        let piece = rest.get(..size).unwrap_or(rest);
        let handed = delivery::hand_on(state, piece, &mut answer);
        let _ = rt.write_all(&answer[..handed.len]);
        state = handed.state;
        rest = &rest[handed.used..];
        size = size % LONGEST_PIECE + 1;
    }
    finish(rt, state);
}

fn main(rt: HostRuntime) {
    let mut space = vectors::space();
    replay(&rt, vectors::read_text(&rt, &mut rt.stdin(), &mut space));
}
