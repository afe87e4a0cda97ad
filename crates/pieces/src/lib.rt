// The bytes of a piece, taken into the present frame up to its end. Each promises the steps of that name in partial_frame's
// specs/Steps.antt.
#![tactic(auto)]

ghost use Rattle.std.specs.Prelude.{◌≡◌, false, ◌≤◌, length};
ghost use Rattle.partial_frame.specs.Steps.{whole_in, progress, advance, Begun};

use partial_frame::{PartialFrame, is_kept};

// The length bytes that have not come.
fn take_length(frame: &mut PartialFrame, piece: &[u8]) -> usize
    requires { whole_in frame.old ≡ false }
    ensures { Begun frame.old piece.now (progress frame.new result) }
{
    let mut used = 0;
    for byte in piece {
        match frame.count {
            0 => frame.hi = *byte,
            1 => frame.lo = *byte,
            _ => break,
        }
        frame.count += 1;
        used += 1;
    }
    used
}

// The bytes of the body. One that is not kept is counted.
fn take_body(frame: &mut PartialFrame, piece: &[u8]) -> usize
    requires { (whole_in frame.old ≡ false) × (2 ≤ frame.old.count) }
    ensures { (progress frame.new result ≡ advance frame.old piece.now) × (result ≤ length piece.now) }
{
    let length = frame.body_length();
    let at = frame.count - 2;
    let used = piece.len().min(length - at);
    if is_kept(length) {
        frame.body[at..at + used].copy_from_slice(&piece[..used]);
    }
    frame.count += used;
    used
}

// Takes bytes off the piece's front, up to the end of the frame or of the piece, and answers how many.
pub fn take_bytes(frame: &mut PartialFrame, piece: &[u8]) -> usize
    requires { whole_in frame.old ≡ false }
    ensures { progress frame.new result ≡ advance frame.old piece.now }
{
    let used = take_length(frame, piece);
    let rest = &piece[used..];
    if rest.is_empty() || frame.is_whole() {
        return used;
    }
    used + take_body(frame, rest)
}
