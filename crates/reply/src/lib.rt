// A reply that is a float or a refusal, as of `constant`, `fused` in a direction and `score_with`: a Result of the float's pattern, whose
// error has a number.
//
// tell promises the form of a reply for C: a number, and a result behind a pointer (specs/Told.antt).
#![tactic(auto)]

ghost use Rattle.std.specs.Prelude.{◌≡◌, ℕ};
ghost use Rattle.reply.specs.Told.{numbered, number, content};

// An error that the documents give a number.
pub trait Refusal: Copy {
    ghost number: { Self → ℕ };

    fn number(self) -> u8
        ensures { result ≡ number self };
}

// Tells C of a reply. Where it is a refusal, the result keeps its content.
pub fn tell<E: Refusal>(reply: Result<u64, E>, out: &mut u64) -> u8
    ensures number { result ≡ number (numbered E.number reply) }
    ensures content { out.new ≡ content (numbered E.number reply) out.old }
{
    match reply {
        Err(refusal) => refusal.number(),
        Ok(bits) => {
            *out = bits;
            0
        }
    }
}
