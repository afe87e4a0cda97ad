// The present frame of the service: its bytes so far, and the test whether any bytes leave what is held. The crate `pieces` takes bytes in.
//
// specs/State.antt says what is held for the bytes of a frame, and specs/Steps.antt how it goes on byte by byte.
#![tactic(auto)]

ghost use Rattle.std.specs.Prelude.{◌≡◌, ◌<◌};
ghost use Rattle.frames.specs.Frame.{kept};
ghost use Rattle.partial_frame.specs.State.{empty_frame, length_in, filled, all_zero, is_left};
ghost use Rattle.partial_frame.specs.Steps.{whole_in, lengths_left};

use frames::LONGEST_BODY;

// The present frame: how many of its bytes have come, its length bytes, and its body so far. Places not yet filled hold 0, and a body
// that is not kept fills none.
#[repr(C)]
#[derive(Clone, Copy, PartialEq, Eq)]
pub struct PartialFrame {
    pub count: usize,
    pub hi: u8,
    pub lo: u8,
    pub body: [u8; LONGEST_BODY],
}

impl PartialFrame {
    // No byte has come.
    #[tactic(auto, unfolding(crate::specs::State::places_of))]
    pub fn empty() -> PartialFrame
        ensures { result ≡ empty_frame }
    {
        PartialFrame {
            count: 0,
            hi: 0,
            lo: 0,
            body: [0; LONGEST_BODY],
        }
    }

    // The body length that the length bytes give.
    pub fn body_length(&self) -> usize
        ensures { (result ≡ length_in self.now) × (result < 65536) }
    {
        usize::from(self.hi) * 256 + usize::from(self.lo)
    }

    #[tactic(auto, unfolding(crate::specs::Steps::whole_in))]
    pub fn is_whole(&self) -> bool
        ensures { result ≡ whole_in self.now }
    {
        2 + self.body_length() <= self.count
    }

    // How many places of the body are filled.
    pub fn filled_places(&self) -> usize
        ensures { result ≡ filled self.now }
    {
        if is_kept(self.body_length()) {
            self.count.saturating_sub(2)
        } else {
            0
        }
    }

    // Whether a length byte that has not come is 0.
    fn lengths_left(&self) -> bool
        ensures { result ≡ lengths_left self.now }
    {
        (1 <= self.count || self.hi == 0) && (2 <= self.count || self.lo == 0)
    }

    // Whether some bytes, short of a whole frame, leave what is held.
    pub fn is_left(&self) -> bool
        ensures { result ≡ is_left self.now }
    {
        !self.is_whole() && self.lengths_left() && are_zero(&self.body[self.filled_places()..])
    }
}

#[tactic(auto, unfolding(frames::specs::Frame::kept))]
pub fn is_kept(n: usize) -> bool
    ensures { result ≡ kept n }
{
    (2..=LONGEST_BODY).contains(&n)
}

// Whether every byte is 0. It looks for the greatest byte and has no early return: the compiler makes wide steps of it.
fn are_zero(bytes: &[u8]) -> bool
    ensures { result ≡ all_zero bytes.now }
{
    bytes.iter().fold(0, |most, byte| most.max(*byte)) == 0
}
