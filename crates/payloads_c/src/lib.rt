// payload and screening for C, declared in include/weigher.h. Each function has the contract of the one it calls, for every argument. C
// has no slice to return and no enum with values: a payload is its start, and a reply of screening a tag and a number
// (specs/Screening.antt).
#![tactic(auto)]

ghost use Rattle.std.specs.Prelude.{◌≡◌};
ghost use Rattle.frames.specs.Part.{payload_from};
ghost use Rattle.screening.specs.Screening.{screened};
ghost use Rattle.payloads_c.specs.Screening.{encoded};

// What a Screening's tag says of its number.
const REFUSED: u8 = 0;

const CLEAN: u8 = 1;

const MISSING: u8 = 2;

// A reply of screening: the refusal's number, or a place, or 0.
#[repr(C)]
#[derive(Clone, Copy)]
pub struct Screening {
    pub tag: u8,
    pub number: usize,
}

// Where a body's payload starts, which goes to the body's end.
#[unsafe(no_mangle)]
pub extern "C" fn weigher_payload(body: &[u8]) -> usize
    ensures { result ≡ payload_from body.now }
{
    let payload = frames::payload(body);
    body.len() - payload.len()
}

// Looks through a kind 1 payload for the first weight that is a NaN.
#[unsafe(no_mangle)]
pub extern "C" fn weigher_screening(payload: &[u8]) -> Screening
    ensures { result ≡ encoded (screened payload.now) }
{
    match screening::screening(payload) {
        Err(bad) => Screening {
            tag: REFUSED,
            number: bad.number() as usize,
        },
        Ok(None) => Screening {
            tag: CLEAN,
            number: 0,
        },
        Ok(Some(place)) => Screening {
            tag: MISSING,
            number: place,
        },
    }
}
