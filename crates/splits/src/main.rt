// Cuts the stream of standard input in two at every place, from a fresh service, and then at random, from one whose counts are near their
// end, and hands the pieces to take one after another, with refused calls in between; then it closes, and asks for a report. A run fails
// where its answers are not those of the whole stream, handed on at once, where the state after a piece is not document 01's for the bytes
// of the present frame, where its counts or those of the report are not the counts over the answers that came, and where a refused call
// gives another number or changes anything. The stream has to end inside a frame. Prints a line for each run that fails, and the counts.
#![tactic(auto)]

ghost use Rattle.std.specs.Prelude.{◌≡◌, ◌≤◌, ◌<◌, length, IfSome};

use counts::Counts;
use delivery::HandedOn;
use memory::View;
use service::{Closed, State, Taken};

// Document 01: "buffer 516 works, 515: 6". The numbers are its own and not the library's, so that those are tested.
const BUFFER: usize = 516;

const SMALL_BUFFER: usize = 515;

const LONGEST_BODY: usize = 514;

// What an answer buffer holds before a call.
const FILL: u8 = 165;

const RANDOM_RUNS: usize = 300;

const LONGEST_PIECE: usize = 64;

// The bytes of a report's answer.
const REPORT_BYTES: usize = 28;

// The service's state, the counts over the answers that came, which it has to show, how many bytes of the wanted answers have come, where
// in the stream the present frame starts, and how many bytes of the stream are taken.
#[derive(Clone, Copy)]
struct Run {
    state: State,
    tally: Counts,
    matched: usize,
    start: usize,
    at: usize,
}

// What a state has that no bytes short of a whole frame leave.
#[derive(Clone, Copy)]
enum Fault {
    // As many bytes as the longest frame.
    LongestFrame,
    // A byte at the last place of a body.
    LastPlace,
    // A length byte that has not come, the first or the second.
    FirstLength,
    SecondLength,
}

// ---- the counts

// With an answer of this code: 0 is accepted, and 1 to 5, 11, 14 and 15 are refused. Each count stops at its end.
fn tallied(tally: Counts, code: u8) -> Counts {
    let mut tally = tally;
    match code {
        0 => tally.accepted = tally.accepted.saturating_add(1),
        1..=5 | 11 | 14 | 15 => tally.refused = tally.refused.saturating_add(1),
        _ => return tally,
    }
    tally.total = tally.total.saturating_add(1);
    tally
}

// Whether a report is answered with these counts.
fn reports(state: State, tally: Counts) -> bool {
    let mut buffer = [FILL; BUFFER];
    let taken = service::take(state, &[0, 2, 1, 4], &mut buffer);
    taken.used == 4
        && taken.len == REPORT_BYTES
        && taken.refusal == 0
        && words::read_u32(&buffer, 0) == 0x001a0100
        && words::read_u64(&buffer, 4) == tally.accepted
        && words::read_u64(&buffer, 12) == tally.refused
        && words::read_u64(&buffer, 20) == tally.total
        && is_filled(&buffer[REPORT_BYTES..])
}

// ---- what is compared

// It looks for the greatest difference and has no early return: the compiler makes wide steps of it.
fn is_filled(bytes: &[u8]) -> bool {
    bytes.iter().fold(0, |most, b| most.max(*b ^ FILL)) == 0
}

// Whether a buffer holds the answer at its front, and behind it what it held before the call.
fn holds(buffer: &[u8], answer: &[u8]) -> bool {
    buffer.strip_prefix(answer).is_some_and(is_filled)
}

// The number in an answer, which is a refusal's or 0, or 0 where there is no answer.
fn number_in(buffer: &[u8; BUFFER], len: usize) -> u8 {
    if len == 0 { 0 } else { buffer[3] }
}

// How many bytes of the wanted answers have come after a call that wrote len bytes and returned this number, where both are right.
fn matched_after(
    from: usize,
    buffer: &[u8; BUFFER],
    len: usize,
    number: u8,
    wanted: &[u8],
) -> Option<usize> {
    let end = from.checked_add(len)?;
    let answer = wanted.get(from..end)?;
    (holds(buffer, answer) && number == number_in(buffer, len)).then_some(end)
}

// ---- the state's bytes

// The byte at a place, or 0.
fn byte_at(bytes: &[u8], at: usize) -> u8 {
    bytes.get(at).copied().unwrap_or(0)
}

// Whether a body holds the bytes behind the length bytes, where it is kept, and 0 at every other place.
fn is_body_of(body: &[u8], bytes: &[u8], kept: bool) -> bool {
    let front = if kept {
        bytes.get(2..).unwrap_or_default()
    } else {
        &[]
    };
    match body.strip_prefix(front) {
        Some(rest) => rest.iter().all(|b| *b == 0),
        None => false,
    }
}

// Whether a frame with these length bytes has its body kept.
fn is_kept(hi: u8, lo: u8) -> bool {
    let length = usize::from(u16::from_be_bytes([hi, lo]));
    (2..=LONGEST_BODY).contains(&length)
}

// Whether a state is document 01's for the bytes of the present frame that have come.
fn is_state_of(state: State, bytes: &[u8]) -> bool {
    let frame = state.frame;
    let body = frame.body;
    let hi = byte_at(bytes, 0);
    let lo = byte_at(bytes, 1);
    frame.count == bytes.len()
        && frame.hi == hi
        && frame.lo == lo
        && is_body_of(&body, bytes, is_kept(hi, lo))
}

// Whether the state is the one for the bytes that have come, of which the present frame has the last, and for the answers.
fn is_held(run: Run, come: &[u8]) -> bool {
    match come.get(run.start..) {
        Some(bytes) => is_state_of(run.state, bytes) && run.state.view.counts == run.tally,
        None => false,
    }
}

// ---- calls that change nothing

// Whether the calls returned this number, and none used a byte or answered.
fn are_idle(taken: Taken, handed: HandedOn, closed: Closed, number: u8) -> bool {
    (taken.refusal, taken.used, taken.len) == (number, 0, 0)
        && (handed.refusal, handed.used, handed.len) == (number, 0, 0)
        && (closed.refusal, closed.len) == (number, 0)
}

// Whether take, hand_on and then close, with a buffer of this size, return this number and leave state and buffer as they were.
fn change_nothing(state: State, piece: &[u8], size: usize, number: u8) -> bool
    requires { size ≤ 516 }
{
    let mut space = [FILL; BUFFER];
    let buffer: &mut [u8] = &mut space[..size];
    let taken = service::take(state, piece, buffer);
    let handed = delivery::hand_on(taken.state, piece, buffer);
    let closed = service::close(handed.state, buffer);
    are_idle(taken, handed, closed, number) && closed.state == state && is_filled(buffer)
}

// A state with another total: one less, and where that would be the least, one more.
fn miscounted(state: State) -> State {
    let frame = state.frame;
    let mut view = state.view;
    view.counts.total = view.counts.total.checked_sub(1).unwrap_or(1);
    State { frame, view }
}

// A state with this fault, made from one that has none.
fn broken(state: State, fault: Fault) -> State {
    let mut frame = state.frame;
    match fault {
        Fault::LongestFrame => frame.count = 65537,
        Fault::LastPlace => frame.body[513] = 1,
        Fault::FirstLength => {
            frame.count = 0;
            frame.hi = 1;
        }
        Fault::SecondLength => {
            frame.count = 1;
            frame.lo = 1;
        }
    }
    let view = state.view;
    State { frame, view }
}

// The fault that a word picks.
fn fault_of(word: usize) -> Fault {
    match word % 4 {
        0 => Fault::LongestFrame,
        1 => Fault::LastPlace,
        2 => Fault::FirstLength,
        _ => Fault::SecondLength,
    }
}

// Whether calls with a small buffer, a broken state or another total are refused. The word picks a small buffer and the fault.
fn refuses(state: State, piece: &[u8], word: usize) -> bool {
    let bad = broken(state, fault_of(word));
    change_nothing(state, piece, SMALL_BUFFER, 6)
        && change_nothing(state, piece, word % BUFFER, 6)
        && change_nothing(bad, piece, SMALL_BUFFER, 6)
        && change_nothing(bad, piece, BUFFER, 7)
        && change_nothing(miscounted(state), piece, BUFFER, 7)
}

// ---- runs, none where one fails

// One take of the bytes that have come and are not taken. One that uses nothing, or more than there is, fails.
fn take_next(run: Run, come: &[u8], wanted: &[u8]) -> Option<Run>
    requires { run.at < length come.now }
    ensures { IfSome result (λ next. (run.at < next.at) × (next.at ≤ length come.now)) }
{
    let piece = &come[run.at..];
    let mut buffer = [FILL; BUFFER];
    let taken = service::take(run.state, piece, &mut buffer);
    let matched = matched_after(run.matched, &buffer, taken.len, taken.refusal, wanted)?;
    if taken.used == 0 || piece.len() < taken.used {
        return None;
    }
    let mut next = run;
    next.state = taken.state;
    next.matched = matched;
    next.at += taken.used;
    if 0 < taken.len {
        next.tally = tallied(run.tally, buffer[3]);
    }
    if run.matched < matched {
        next.start = next.at;
    }
    Some(next)
}

// Refused calls, and then all bytes that have come, taken to their end.
fn hand_over(run: Run, come: &[u8], wanted: &[u8], word: usize) -> Option<Run>
    requires { run.at ≤ length come.now }
    ensures { IfSome result (λ next. next.at ≡ length come.now) }
{
    if !refuses(run.state, &come[run.at..], word) {
        return None;
    }
    let mut run = run;
    while run.at < come.len() {
        run = take_next(run, come, wanted)?;
    }
    is_held(run, come).then_some(run)
}

// Whether all the wanted answers came, and the end is answered by refusal 8 and leaves a service that an empty piece and another end do not
// change, and that reports the counts over the answers to the frames.
fn finish(run: Run, wanted: &[u8]) -> bool {
    let mut buffer = [FILL; BUFFER];
    let closed = service::close(run.state, &mut buffer);
    run.matched == wanted.len()
        && matched_after(0, &buffer, closed.len, closed.refusal, &[0, 2, 1, 8]) == Some(4)
        && change_nothing(closed.state, &[], BUFFER, 0)
        && reports(closed.state, run.tally)
}

// The generator of Lehmer with the numbers of Park and Miller.
fn next_random(x: usize) -> usize
    requires { x < 2147483647 }
    ensures { result < 2147483647 }
{
    x * 48271 % 2147483647
}

// Where the piece that starts at a place ends. A run whose number is a place of the stream cuts it there, and any other at random.
fn piece_end(number: usize, word: usize, at: usize, len: usize) -> usize
    requires { at < len }
    ensures { (at < result) × (result ≤ len) }
{
    if len < number {
        return at + 1 + word % (len - at) % LONGEST_PIECE;
    }
    if at < number {
        return number;
    }
    len
}

// The run of this number, which is its seed too, to the stream's end.
fn run_to_end(state: State, stream: &[u8], wanted: &[u8], number: usize) -> Option<Run>
    requires { number < 2147483647 }
{
    let mut run = Run {
        state,
        tally: state.view.counts,
        matched: 0,
        start: 0,
        at: 0,
    };
    let mut word = number;
    while run.at < stream.len() {
        word = next_random(word);
        let end = piece_end(number, word, run.at, stream.len());
        run = hand_over(run, &stream[..end], wanted, word)?;
    }
    Some(run)
}

// Whether the run of this number does not fail.
fn passes(state: State, stream: &[u8], wanted: &[u8], number: usize) -> bool
    requires { number < 2147483647 }
{
    match run_to_end(state, stream, wanted, number) {
        Some(run) => finish(run, wanted),
        None => false,
    }
}

// A service whose counts are near their end: the stream brings the total to it, and then the frames accepted.
fn near_the_end() -> State {
    let counts = Counts {
        accepted: u64::MAX - 9,
        refused: 4,
        total: u64::MAX - 5,
    };
    let frame = service::fresh().frame;
    let view = View { counts };
    State { frame, view }
}

// The answers to the whole stream, handed on at once.
fn answer_whole<'a>(state: State, stream: &[u8], space: &'a mut [u8]) -> &'a [u8]
    ensures { length result.now ≤ length space.old }
{
    let handed = delivery::hand_on(state, stream, space);
    &space[..handed.len]
}

// How many of the runs from one number up to another fail that start from this state.
fn count_failures<P: Print>(rt: &P, state: State, stream: &[u8], first: usize, runs: usize) -> usize
    requires { (first ≤ runs) × (runs < 2147483647) }
    ensures { result ≤ runs }
{
    let mut space = vectors::space();
    let wanted = answer_whole(state, stream, &mut space);
    let mut failures = 0;
    for number in first..runs {
        if !passes(state, stream, wanted, number) {
            let _ = println!(rt; "run {number} fails");
            failures += 1;
        }
    }
    failures
}

fn run_all<P: Print>(rt: &P, stream: &[u8])
    requires { length stream.now ≤ 1048576 }
{
    let cuts = stream.len() + 1;
    let runs = cuts + RANDOM_RUNS;
    let failures = count_failures(rt, service::fresh(), stream, 0, cuts);
    let near = count_failures(rt, near_the_end(), stream, cuts, runs);
    let all = failures + near;
    let _ = println!(rt; "{runs} runs, {all} failures");
}

fn main(rt: HostRuntime) {
    let mut space = vectors::space();
    run_all(&rt, vectors::read_text(&rt, &mut rt.stdin(), &mut space));
}
