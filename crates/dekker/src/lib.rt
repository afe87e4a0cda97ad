// The remainder of a product in f64 operations alone, where both factors are far from both ends of the exponents: each is split into two halves
// (Veltkamp), and with products of halves every step is exact (Dekker).
#![tactic(auto)]

ghost use Rattle.std.specs.Prelude.{◌≡◌, not, T};
ghost use Rattle.std.specs.Float.{binary64};
ghost use Rattle.std.specs.Float.Ieee.{mul, neg, is_nan};
ghost use Rattle.rounding.specs.declared.Direction.TheVariants.{Nearest};
ghost use Rattle.ieee754.specs.Operations.{fused_multiply_add};
ghost use Rattle.operands.specs.Machine.{field_of, Middle};
ghost use Rattle.pair.specs.Pair.{bits};
ghost use Rattle.dekker.specs.Machine.{high_half};

// The high half of the number with the pattern x: the number rounded to 26 digits.
fn high_half(x: u64) -> f64
    requires { Middle (field_of x) }
    ensures { result ≡ bits (high_half x) }
{
    f64::from_bits((x + 0x4000000) / 0x8000000 * 0x8000000)
}

// a * b - hi, where a and b have the patterns x and y, and hi is a * b rounded.
pub fn dekker_error(a: f64, b: f64, hi: f64, x: u64, y: u64) -> f64
    requires { (bits x ≡ a) × (bits y ≡ b) × Middle (field_of x) × Middle (field_of y) × (hi ≡ mul binary64 a b) }
    ensures { (result ≡ fused_multiply_add Nearest a b (neg hi)) × T (not (is_nan result)) }
{
    let ah = high_half(x);
    let bh = high_half(y);
    let al = a - ah;
    let bl = b - bh;
    ah * bh - hi + ah * bl + al * bh + al * bl
}
