// Scaling by a power of two, on 64-bit patterns. The public call is total, and its contract is an equation with
// `scale_bits` of ieee754's specs/Operations.antt.
//
// Exponents past those of every result are brought to a bound, whose rounding is the same.
#![tactic(auto)]

ghost use Rattle.std.specs.Prelude.{◌≡◌, ◌≤◌};
ghost use Rattle.operands.specs.Machine.{Regular, scaled_exponent};
ghost use Rattle.ieee754.specs.Operations.{scale_bits};

use operands::{negative, quiet, read};
use rounding::{Direction, INFINITY, Rounding, SIGN};

// The exponent of a significand in units of 2^-2337, from e in units of 2^-1126 and 11 digits fewer.
fn scaled_exponent(e: u64, n: i32) -> u64
    requires { e ≤ 2097 }
    ensures { result ≡ scaled_exponent e n }
{
    if n < 0 {
        let k = (-1 - n) as u64;
        if e + 1199 < k { 0 } else { e + 1199 - k }
    } else {
        let k = n as u64;
        if 4000 < e + k + 1200 {
            4000
        } else {
            e + k + 1200
        }
    }
}

fn scale_regular(x: u64, n: i32) -> u64
    requires { Regular x }
    ensures { result ≡ scale_bits x n }
{
    let neg = negative(x);
    let nearest = Rounding {
        dir: Direction::Nearest,
        neg,
    };
    let p = read(x);
    let e = scaled_exponent(p.e, n);
    nearest.round_pack(p.m * 2048, e)
}

// x * 2^n, rounded once to nearest.
pub fn scale(x: u64, n: i32) -> u64
    ensures { result ≡ scale_bits x n }
{
    let m = x % SIGN;
    if INFINITY < m {
        return quiet(x);
    }
    if m == INFINITY {
        return x;
    }
    if m == 0 {
        return x;
    }
    scale_regular(x, n)
}
