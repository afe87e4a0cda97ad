// The answer to a frame that is not refused: the results of its items, or a report's numbers, written into a buffer.
//
// The contracts are equations with the documents' answers on lists of bytes, in specs/Answers.antt.
#![tactic(auto)]

ghost use Rattle.std.specs.Prelude.{◌≡◌, ◌++◌, ◌+◌, ◌*◌, ◌≤◌, length, get_or, drop};
ghost use Rattle.frames.specs.Frame.{answer_room, items_from, item_bytes, refusal_to};
ghost use Rattle.frames.specs.Body.{Body};
ghost use Rattle.frames.specs.Numbers.{kind_number};
ghost use Rattle.counts.specs.Counts.{report_of};
ghost use Rattle.answers.specs.Answers.{direction_in, result_at, results_of, accepting, items_in};
ghost use Rattle.answers.specs.Written.{Written};

use counts::{Counts, REPORT_BYTES};
use frames::Kind;
use rounding::Direction;
use sheet_values::VALUES;

// The direction of a payload's triples.
#[tactic(auto, unfolding(crate::specs::Answers::direction_in, frames::specs::Frame::kind_of))]
fn direction_in(kind: Kind, payload: &[u8]) -> Direction
    requires { items_from (kind_number kind) ≤ length payload.now }
    ensures { result ≡ direction_in (kind_number kind) payload.now }
{
    if kind != Kind::Directed {
        return Direction::Nearest;
    }
    Direction::try_from(payload[0]).unwrap_or(Direction::Nearest)
}

// The result of the item at a place of a payload that is no sheet.
#[tactic(auto, unfolding(crate::specs::Answers::result_at, frames::specs::Frame::kind_of))]
fn result_at(kind: Kind, dir: Direction, payload: &[u8], at: usize) -> u64
    requires { (kind_number kind ≡ 5 → ⊥) × (at + item_bytes (kind_number kind) ≤ length payload.now) × (dir ≡ direction_in (kind_number kind) payload.now) }
    ensures { result ≡ result_at (kind_number kind) payload.now at }
{
    if kind == Kind::Scores {
        return exp2m1::score(words::read_u64(payload, at));
    }
    let a = words::read_u64(payload, at);
    let b = words::read_u64(payload, at + 8);
    let c = words::read_u64(payload, at + 16);
    multiply_add::fused_in(a, b, c, dir)
}

// Writes the results of the first n items of a payload that is no sheet.
fn write_results(kind: Kind, payload: &[u8], n: usize, out: &mut [u8])
    requires { (kind_number kind ≡ 5 → ⊥) × (items_from (kind_number kind) + n * item_bytes (kind_number kind) ≤ length payload.now) × (8 * n ≤ length out.old) }
    ensures { out.new ≡ results_of (kind_number kind) n payload.now ++ drop (8 * n) out.old }
{
    let number = u8::from(kind);
    let start = frames::items_from(number);
    let size = frames::item_bytes(number);
    let dir = direction_in(kind, payload);
    for i in 0..n {
        let x = result_at(kind, dir, payload, start + i * size);
        words::write_u64(&mut out[8 * i..], x);
    }
}

// Writes the answer with these results, and returns its length.
fn write_items(kind: Kind, n: usize, payload: &[u8], answer: &mut [u8]) -> usize
    requires { (kind_number kind ≡ 5 → ⊥) × (items_from (kind_number kind) + n * item_bytes (kind_number kind) ≤ length payload.now) × (8 * n + 4 ≤ answer_room) × (answer_room ≤ length answer.old) }
    ensures { Written (accepting (results_of (kind_number kind) n payload.now)) result answer.old answer.new }
{
    let size = 8 * n + 2;
    frames::write_head(answer, size, 0);
    write_results(kind, payload, n, &mut answer[4..]);
    size + 2
}

// Writes the answer to a report, which shows the counts, and returns its length.
pub fn write_report(counts: Counts, answer: &mut [u8]) -> usize
    requires { answer_room ≤ length answer.old }
    ensures { Written (accepting (report_of counts)) result answer.old answer.new }
{
    frames::write_head(answer, REPORT_BYTES + 2, 0);
    counts::write_report(counts, &mut answer[4..]);
    REPORT_BYTES + 4
}

// Writes the answer to a frame with items that is not refused and no sheet, and returns its length.
pub fn write_answer(n: usize, body: &[u8], answer: &mut [u8]) -> usize
    requires { Body n body.now × (refusal_to n body.now ≡ 0) × (get_or body.now 1 0 ≡ 5 → ⊥) × (answer_room ≤ length answer.old) }
    ensures { Written (accepting (items_in n body.now)) result answer.old answer.new }
{
    let kind = Kind::try_from(body[1]).unwrap();
    let count = frames::item_count(body[1], n - 2);
    write_items(kind, count, frames::payload(body), answer)
}

// The same for a sheet: the values of its lines are scored as weights are. Each weight is so scored inside one loop: by a call from two, the
// quickest took half as long again.
pub fn write_sheet(n: usize, body: &[u8], answer: &mut [u8]) -> usize
    requires { Body n body.now × (refusal_to n body.now ≡ 0) × (get_or body.now 1 0 ≡ 5) × (answer_room ≤ length answer.old) }
    ensures { Written (accepting (items_in n body.now)) result answer.old answer.new }
{
    let count = frames::item_count(Kind::Sheet as u8, n - 2);
    let mut values = [0u8; VALUES];
    sheet_values::write_values(frames::payload(body), count, &mut values);
    write_items(Kind::Scores, count, &values, answer)
}
