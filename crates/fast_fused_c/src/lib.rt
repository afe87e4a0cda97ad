// fast_fused for C, where it is compared and timed as the fma that the score calls.
#![tactic(auto)]

ghost use Rattle.std.specs.Prelude.{◌≡◌};
ghost use Rattle.rounding.specs.declared.Direction.TheVariants.{Nearest};
ghost use Rattle.ieee754.specs.Operations.{fused_bits};

// a × b + c, rounded once.
#[unsafe(no_mangle)]
pub extern "C" fn fast_fused(a: u64, b: u64, c: u64) -> u64
    ensures { result ≡ fused_bits Nearest a b c }
{
    fast_fused::fused(a, b, c)
}
