// Screening a kind 1 payload for weights that are no number, before it is sent.
//
// The reply is screened of specs/Screening.antt, for every payload: refusal 5, or that there is no NaN, or the place of the first.
#![tactic(auto)]

ghost use Rattle.std.specs.Prelude.{◌≡◌, position};
ghost use Rattle.screening.specs.Screening.{screened, number_of, numbered};
ghost use Rattle.screening.specs.Chunks.{is_missing};

// A payload that is empty or no whole weights.
#[derive(Clone, Copy, Debug, PartialEq, Eq)]
pub struct BadPayload;

impl BadPayload {
    // The refusal's number.
    pub fn number(self) -> u8
        ensures { result ≡ number_of self }
    {
        5
    }
}

// Twice the pattern of an infinity, without the sign.
const TWICE_INFINITY: u64 = 0xffe0000000000000;
// Its first four bytes.
const HIGH_INFINITY: u32 = 0xffe00000;

// Most weights are told by their first four bytes: the loop over them is short, and its worst place in memory costs less.
fn is_nan(weight: &[u8; 8]) -> bool
    ensures { result ≡ is_missing weight.now }
{
    // The shifts drop the sign.
    let high = u32::from_be_bytes([weight[0], weight[1], weight[2], weight[3]]);
    HIGH_INFINITY <= high << 1 && TWICE_INFINITY < u64::from_be_bytes(*weight) << 1
}

// The place of the first weight that is a NaN, counted in weights from 0, if there is one.
fn first_missing(weights: &[[u8; 8]]) -> Option<usize>
    ensures { result ≡ position is_missing weights.now }
{
    weights.iter().position(|weight| is_nan(weight))
}

// Looks through a kind 1 payload for the first weight that is a NaN.
pub fn screening(payload: &[u8]) -> Result<Option<usize>, BadPayload>
    ensures { numbered result ≡ screened payload.now }
{
    let (weights, rest) = payload.as_chunks::<8>();
    if weights.is_empty() || !rest.is_empty() {
        return Err(BadPayload);
    }
    Ok(first_missing(weights))
}
