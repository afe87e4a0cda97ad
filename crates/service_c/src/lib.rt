// The service for C, declared in include/weigher.h. Each function has the contract of the one it calls, for every argument.
#![tactic(auto)]

ghost use Rattle.std.specs.Prelude.{◌≡◌};
ghost use Rattle.service.specs.Service.{fresh_state, take_of, close_of, taken_of, closed_of};
ghost use Rattle.delivery.specs.Delivery.{Delivers};

use delivery::HandedOn;
use service::{Closed, State, Taken};

// The service before its first byte.
#[unsafe(no_mangle)]
pub extern "C" fn weigher_fresh() -> State
    ensures { result ≡ fresh_state }
{
    service::fresh()
}

// Uses a piece up to the end of the first frame that ends in it, and answers that frame.
#[unsafe(no_mangle)]
pub extern "C" fn weigher_take(state: State, piece: &[u8], answer: &mut [u8]) -> Taken
    ensures { (result ≡ taken_of (take_of state piece.now answer.old)) × (answer.new ≡ (take_of state piece.now answer.old).buffer) }
{
    service::take(state, piece, answer)
}

// Ends the stream.
#[unsafe(no_mangle)]
pub extern "C" fn weigher_close(state: State, answer: &mut [u8]) -> Closed
    ensures { (result ≡ closed_of (close_of state answer.old)) × (answer.new ≡ (close_of state answer.old).buffer) }
{
    service::close(state, answer)
}

// take, repeated on the piece's unused end while there is room for an answer.
#[unsafe(no_mangle)]
pub extern "C" fn weigher_hand_on(state: State, piece: &[u8], answers: &mut [u8]) -> HandedOn
    ensures { Delivers state piece.now answers.old result answers.new }
{
    delivery::hand_on(state, piece, answers)
}
