// Runs the vectors of standard input through screening: a line for each failure, and then the count.
//
// A vector is `PAYLOAD TAG NUMBER`: the payload's bytes, two digits each, and the reply, 0 and the refusal's number, 1 and 0 where no weight is
// a NaN, or 2 and the place of the first. A failure's got is 0.
#![tactic(auto)]

use screening::BadPayload;
use vectors::Answer;

// 64 weights, the longest kind 1 payload.
const LONGEST: usize = 512;

// The bytes of a text, two digits each, read to the space.
fn read_payload<'a>(text: &[u8], space: &'a mut [u8]) -> Option<&'a [u8]> {
    let (pairs, []) = text.as_chunks::<2>() else {
        return None;
    };
    let payload = space.get_mut(..pairs.len())?;
    for (byte, digits) in payload.iter_mut().zip(pairs) {
        *byte = u8::try_from(vectors::hex(digits)?).ok()?;
    }
    Some(payload)
}

// The two numbers of a reply.
fn numbers_in(reply: Result<Option<usize>, BadPayload>) -> [u64; 2] {
    match reply {
        Err(bad) => [0, u64::from(bad.number())],
        Ok(None) => [1, 0],
        Ok(Some(place)) => [2, place as u64],
    }
}

// 1 where the reply is the line's.
fn answer(line: &[u8]) -> Option<Answer> {
    let mut space = [0; LONGEST];
    let payload = read_payload(vectors::name_of(line), &mut space)?;
    let wanted = vectors::numbers_of::<2>(line)?;
    let is_right = numbers_in(screening::screening(payload)) == wanted;
    Some(Answer {
        got: u64::from(is_right),
        want: 1,
    })
}

fn main(rt: HostRuntime) {
    vectors::run(&rt, &mut rt.stdin(), answer);
}
