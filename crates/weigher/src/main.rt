// The weigher on standard input and output: it reads, hands on what it read, and writes the answers before it reads again. At the end of
// the input it closes the service. A read that fails and an output that takes nothing more end it with a line on standard error.
//
// All that decides an answer is in the crates service and delivery.
#![tactic(auto)]

ghost use Rattle.std.specs.Prelude.{◌≡◌, true, ◌≤◌, length, IfOk};
ghost use Rattle.frames.specs.Frame.{answer_room};
ghost use Rattle.service.specs.Service.{is_good};
ghost use Rattle.weigher.specs.Serve.{Serves};

use frames::ANSWER_ROOM;
use service::State;
use std::io;
use std::io::Read;

// Room for the answers to one read of 65,536 bytes, so that one write follows it: seven times its bytes and two answers (`once` of
// crates/streams/specs/Streams.antt). A report has four bytes and 28 of answer, and the first frame may have come in part before.
const ANSWERS: usize = 7 * 65536 + 2 * ANSWER_ROOM;

fn answer_space() -> [u8; ANSWERS]
    ensures { 459784 ≡ length result }
{
    [0; ANSWERS]
}

// Why the program ends before its input does.
enum Failure {
    Input(io::Error),
    Output(io::Error),
}

// Hands a piece on to its end, and writes every answer. Its promise, Serves of specs/Serve.antt, is one step of output_of of
// crates/streams/specs/Streams.antt, which is shown to be the answers to the frames of all that was read.
fn serve<P: Print>(rt: &P, state: State, piece: &[u8], space: &mut [u8]) -> io::Result<State>
    requires { (is_good state ≡ true) × (answer_room ≤ length space.old) }
    ensures { IfOk result (λ after. Serves state piece.now space.old after space.new) }
{
    let mut state = state;
    let mut rest = piece;
    while !rest.is_empty() {
        let handed = delivery::hand_on(state, rest, space);
        stdio::write_out(rt, &space[..handed.len])?;
        state = handed.state;
        rest = &rest[handed.used..];
    }
    Ok(state)
}

// The end of the input: an unfinished frame is refused.
fn finish<P: Print>(rt: &P, state: State) -> io::Result<()> {
    let mut answer = [0u8; ANSWER_ROOM];
    let closed = service::close(state, &mut answer);
    stdio::write_out(rt, &answer[..closed.len])
}

// Serves the input to its end.
#[tactic(auto, using(service::proofs::Calls::fresh_good))]
fn serve_input<P: Print, R: Read>(rt: &P, input: &mut R) -> Result<(), Failure> {
    let mut piece = [0u8; 65536];
    let mut space = answer_space();
    let mut state = service::fresh();
    for _ in 0..u64::MAX {
        let got = stdio::read_some(input, &mut piece).map_err(Failure::Input)?;
        if got == 0 {
            return finish(rt, state).map_err(Failure::Output);
        }
        state = serve(rt, state, &piece[..got], &mut space).map_err(Failure::Output)?;
    }
    Ok(())
}

fn main(rt: HostRuntime) {
    match serve_input(&rt, &mut rt.stdin()) {
        Ok(()) => {}
        Err(Failure::Input(error)) => stdio::input_failed(&rt, error),
        Err(Failure::Output(error)) => stdio::output_failed(&rt, error),
    }
}
