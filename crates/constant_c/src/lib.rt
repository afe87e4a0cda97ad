// constant for C, declared in include/weigher.h. C has no enum with values: a reply is the number that is returned, 0 where the text is
// read, and the float behind the pointer (specs/Told.antt of reply).
#![tactic(auto)]

ghost use Rattle.std.specs.Prelude.{◌≡◌};
ghost use Rattle.constant.specs.Constant.{constant_of};
ghost use Rattle.reply.specs.Told.{number, content};

// Reads a constant's text. Where it is refused, the result keeps its content.
#[unsafe(no_mangle)]
pub extern "C" fn weigher_constant(text: &[u8], out: &mut u64) -> u8
    ensures number { result ≡ number (constant_of text.now) }
    ensures content { out.new ≡ content (constant_of text.now) out.old }
{
    reply::tell(constant::constant(text), out)
}
