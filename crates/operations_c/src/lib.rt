// The operations for C, declared in include/weigher.h. Each function has the contract of the one it calls, for every argument. C has no enum
// with values: a reply of fused in a direction is the number that is returned, 0 where there is a float, and the float behind the pointer
// (specs/Told.antt of reply).
#![tactic(auto)]

ghost use Rattle.std.specs.Prelude.{◌≡◌};
ghost use Rattle.rounding.specs.declared.Direction.TheVariants.{Nearest};
ghost use Rattle.ieee754.specs.Operations.{fused_bits, round_bits, floor_bits, scale_bits};
ghost use Rattle.reply.specs.Told.{number, content};
ghost use Rattle.multiply_add.specs.Fused.{fused_reply};

// a × b + c, rounded once to nearest.
#[unsafe(no_mangle)]
pub extern "C" fn weigher_fused(a: u64, b: u64, c: u64) -> u64
    ensures { result ≡ fused_bits Nearest a b c }
{
    multiply_add::fused_nearest(a, b, c)
}

// The same in the direction that the byte names. Where it names none, the result keeps its content.
#[unsafe(no_mangle)]
pub extern "C" fn weigher_fused_in(direction: u8, a: u64, b: u64, c: u64, out: &mut u64) -> u8
    ensures number { result ≡ number (fused_reply direction a b c) }
    ensures content { out.new ≡ content (fused_reply direction a b c) out.old }
{
    reply::tell(multiply_add::fused(direction, a, b, c), out)
}

// The nearest whole number, a tie to the even one.
#[unsafe(no_mangle)]
pub extern "C" fn weigher_round(x: u64) -> u64
    ensures { result ≡ round_bits x }
{
    integral::round(x)
}

// The greatest whole number not above x.
#[unsafe(no_mangle)]
pub extern "C" fn weigher_floor(x: u64) -> u64
    ensures { result ≡ floor_bits x }
{
    integral::floor(x)
}

// x × 2^n, rounded once.
#[unsafe(no_mangle)]
pub extern "C" fn weigher_scale(x: u64, n: i32) -> u64
    ensures { result ≡ scale_bits x n }
{
    scaling::scale(x, n)
}
