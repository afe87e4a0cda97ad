// Frames: the payload of a body, the sender's refusals, and the refusal frame and the first bytes of an answer, written into a buffer.
//
// The contracts are equations with the documents' frames on lists of bytes, in specs/Frame.antt. payload promises its place too
// (specs/Part.antt). The results of a payload are in the crate answers: nothing here computes with floats.
#![tactic(auto)]

ghost use Rattle.std.specs.Prelude.{◌≡◌, ◌∷◌, ◌*◌, ◌/◌, ◌%◌, ◌≤◌, ◌<◌, length, get_or, drop, IfOk};
ghost use Rattle.frames.specs.Frame.{kind_of, no_items, items_from, item_bytes, item_count, bad_payload, refusal_to};
ghost use Rattle.frames.specs.Body.{Body};
ghost use Rattle.frames.specs.Numbers.{kind_number, number_of, numbered, IsDirections, IsKind, SameNumber};
ghost use Rattle.frames.specs.Part.{Part, payload_from};

use rounding::{Direction, UnknownDirection};
use sheets::{BadLine, LINE_BYTES};

// The longest body that is answered, and not refused by its length.
pub const LONGEST_BODY: usize = 514;
// The bytes of an answer buffer that every answer fits into.
pub const ANSWER_ROOM: usize = 516;
// The bytes of a refusal frame.
const REFUSAL_BYTES: usize = 4;

const VERSION: u8 = 1;

const WEIGHT_BYTES: usize = 8;

const TRIPLE_BYTES: usize = 24;

// The kinds by their numbers: scores, a * b + c to nearest, and in a direction, a report, and a sheet.
#[derive(Clone, Copy, Debug, PartialEq, Eq)]
pub enum Kind {
    Scores = 1,
    Fused = 2,
    Directed = 3,
    Report = 4,
    Sheet = 5,
}

// Why a frame is refused, by the refusal's number.
#[derive(Clone, Copy, Debug, PartialEq, Eq)]
pub enum Refusal {
    TooShort = 1,
    TooLong = 2,
    BadVersion = 3,
    BadKind = 4,
    BadPayload = 5,
    BadDirection = 11,
    BadForm = 14,
    BadNumber = 15,
}

impl Refusal {
    pub fn number(self) -> u8
        ensures { result ≡ number_of self }
    {
        self as u8
    }
}

impl From<BadLine> for Refusal {
    ghost from_gives = { SameNumber };

    fn from(bad: BadLine) -> Refusal {
        match bad {
            BadLine::Form => Refusal::BadForm,
            BadLine::Number => Refusal::BadNumber,
        }
    }
}

impl From<UnknownDirection> for Refusal {
    ghost from_gives = { IsDirections };

    fn from(_unknown: UnknownDirection) -> Refusal {
        Refusal::BadDirection
    }
}

impl TryFrom<u8> for Kind {
    type Error = Refusal;

    ghost try_from_gives = { IsKind };

    #[tactic(auto, unfolding(crate::specs::Frame::is_kind))]
    fn try_from(number: u8) -> Result<Kind, Refusal> {
        match number {
            1 => Ok(Kind::Scores),
            2 => Ok(Kind::Fused),
            3 => Ok(Kind::Directed),
            4 => Ok(Kind::Report),
            5 => Ok(Kind::Sheet),
            _ => Err(Refusal::BadKind),
        }
    }
}

impl From<Kind> for u8 {
    ghost from_gives = { λ kind number. number ≡ kind_number kind };

    fn from(kind: Kind) -> u8 {
        kind as u8
    }
}

impl Kind {
    // A kind's own refusal of a payload before 5.
    #[tactic(auto, unfolding(crate::specs::Frame::kind_of))]
    fn check_direction(self, payload: &[u8]) -> Result<(), Refusal>
        ensures { numbered result ≡ (kind_of (kind_number self)).own payload.now }
    {
        if self == Kind::Directed && payload.len() != 0 {
            Direction::try_from(payload[0])?;
        }
        Ok(())
    }

    // Whether a payload of n bytes is not what the kind has: nothing in a report, and otherwise at least one item, and whole items.
    #[tactic(auto, unfolding(crate::specs::Frame::kind_of, crate::specs::Frame::bad_payload))]
    fn bad_payload(self, n: usize) -> bool
        ensures { result ≡ bad_payload (kind_number self) n }
    {
        match self {
            Kind::Scores => no_items(0, WEIGHT_BYTES, n),
            Kind::Fused => no_items(0, TRIPLE_BYTES, n),
            Kind::Directed => no_items(1, TRIPLE_BYTES, n),
            Kind::Report => n != 0,
            Kind::Sheet => no_items(0, LINE_BYTES, n),
        }
    }
}

// The bytes that precede the items of a kind's payload.
#[tactic(auto, unfolding(crate::specs::Frame::kind_of))]
pub fn items_from(kind: u8) -> usize
    ensures { (result ≡ items_from kind) × (result ≤ 1) }
{
    if kind == Kind::Directed as u8 { 1 } else { 0 }
}

// The bytes of one item of a kind that is no sheet. A sheet's are asked for apart, so that lengths are divided by constants.
#[tactic(auto, unfolding(crate::specs::Frame::kind_of))]
pub fn item_bytes(kind: u8) -> usize
    requires { kind ≡ 5 → ⊥ }
    ensures { (result ≡ item_bytes kind) × (8 ≤ result) × (result ≤ 24) }
{
    if kind == Kind::Scores as u8 {
        WEIGHT_BYTES
    } else {
        TRIPLE_BYTES
    }
}

// The items in a kind's payload of n bytes.
#[tactic(auto, unfolding(crate::specs::Frame::kind_of))]
pub fn item_count(kind: u8, n: usize) -> usize
    requires { items_from kind ≤ n }
    ensures { (result ≡ item_count kind n) × (8 * result ≤ n) }
{
    // Apart too, for the same reason.
    if kind == Kind::Scores as u8 {
        return n / WEIGHT_BYTES;
    }
    if kind == Kind::Sheet as u8 {
        return n / LINE_BYTES;
    }
    (n - items_from(kind)) / item_bytes(kind)
}

// Whether in n bytes nothing comes behind what precedes the items, or no multiple of an item.
fn no_items(before: usize, item: usize, n: usize) -> bool
    requires { 0 < item }
    ensures { result ≡ no_items before item n }
{
    n <= before || (n - before) % item != 0
}

// From a body's third byte to its end; a body under 2 bytes gives its own empty end.
pub fn payload(body: &[u8]) -> &[u8]
    ensures { Part result body.entry (payload_from body.now) }
{
    if body.len() < 2 {
        return &body[body.len()..];
    }
    &body[2..]
}

// The kind of a body of n bytes, or the first of the sender's refusals that it meets. Where n is 2 to 514, body is that body.
pub fn refusal_to(n: usize, body: &[u8]) -> Result<Kind, Refusal>
    requires { Body n body.now }
    ensures number { numbered result ≡ refusal_to n body.now }
    ensures kind { IfOk result (λ kind. kind_number kind ≡ get_or body.now 1 0) }
{
    if n < 2 {
        return Err(Refusal::TooShort);
    }
    if LONGEST_BODY < n {
        return Err(Refusal::TooLong);
    }
    if body[0] != VERSION {
        return Err(Refusal::BadVersion);
    }
    let kind = Kind::try_from(body[1])?;
    let rest = payload(body);
    kind.check_direction(rest)?;
    if kind.bad_payload(n - 2) {
        return Err(Refusal::BadPayload);
    }
    if kind == Kind::Sheet {
        sheets::refusal(rest)?;
    }
    Ok(kind)
}

// The first four bytes of an answer: a body of n bytes with version 1 and a code.
pub fn write_head(out: &mut [u8], n: usize, code: u8)
    requires { (4 ≤ length out.old) × (n < 65536) }
    ensures { out.new ≡ n / 256 ∷ n % 256 ∷ 1 ∷ code ∷ drop 4 out.old }
{
    out[0] = (n / 256 % 256) as u8;
    out[1] = (n % 256) as u8;
    out[2] = VERSION;
    out[3] = code;
}

// Writes a refusal frame, and answers its length.
pub fn write_refusal(number: u8, answer: &mut [u8]) -> usize
    requires { 4 ≤ length answer.old }
    ensures { (result ≡ 4) × (answer.new ≡ 0 ∷ 2 ∷ 1 ∷ number ∷ drop 4 answer.old) }
{
    write_head(answer, 2, number);
    REFUSAL_BYTES
}
