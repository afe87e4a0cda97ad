// Step 6 of exp2m1: 2^x - 1 for a whole number x from -53 to 53, read from a table of the 107 scores.
//
// exp2m1_whole promises the definition of its name in specs/Whole.antt, which is exactly 2^x - 1, and what the operations of exp2m1.rs give
// (StepSix).
#![tactic(auto)]

ghost use Rattle.std.specs.Prelude.{◌≡◌, T};
ghost use Rattle.exp2m1_whole.specs.Whole.{Whole, exp2m1_whole};
ghost use Rattle.exp2m1_whole.specs.Table.{all_exact};

// The scores of -53 to 53, that of x at the place x + 53.
const SCORES: [f64; 107] = [
    f64::from_bits(0xbfefffffffffffff), // 2^-53 - 1
    f64::from_bits(0xbfeffffffffffffe), // 2^-52 - 1
    f64::from_bits(0xbfeffffffffffffc), // 2^-51 - 1
    f64::from_bits(0xbfeffffffffffff8), // 2^-50 - 1
    f64::from_bits(0xbfeffffffffffff0), // 2^-49 - 1
    f64::from_bits(0xbfefffffffffffe0), // 2^-48 - 1
    f64::from_bits(0xbfefffffffffffc0), // 2^-47 - 1
    f64::from_bits(0xbfefffffffffff80), // 2^-46 - 1
    f64::from_bits(0xbfefffffffffff00), // 2^-45 - 1
    f64::from_bits(0xbfeffffffffffe00), // 2^-44 - 1
    f64::from_bits(0xbfeffffffffffc00), // 2^-43 - 1
    f64::from_bits(0xbfeffffffffff800), // 2^-42 - 1
    f64::from_bits(0xbfeffffffffff000), // 2^-41 - 1
    f64::from_bits(0xbfefffffffffe000), // 2^-40 - 1
    f64::from_bits(0xbfefffffffffc000), // 2^-39 - 1
    f64::from_bits(0xbfefffffffff8000), // 2^-38 - 1
    f64::from_bits(0xbfefffffffff0000), // 2^-37 - 1
    f64::from_bits(0xbfeffffffffe0000), // 2^-36 - 1
    f64::from_bits(0xbfeffffffffc0000), // 2^-35 - 1
    f64::from_bits(0xbfeffffffff80000), // 2^-34 - 1
    f64::from_bits(0xbfeffffffff00000), // 2^-33 - 1
    f64::from_bits(0xbfefffffffe00000), // 2^-32 - 1
    f64::from_bits(0xbfefffffffc00000), // 2^-31 - 1
    f64::from_bits(0xbfefffffff800000), // 2^-30 - 1
    f64::from_bits(0xbfefffffff000000), // 2^-29 - 1
    f64::from_bits(0xbfeffffffe000000), // 2^-28 - 1
    f64::from_bits(0xbfeffffffc000000), // 2^-27 - 1
    f64::from_bits(0xbfeffffff8000000), // 2^-26 - 1
    f64::from_bits(0xbfeffffff0000000), // 2^-25 - 1
    f64::from_bits(0xbfefffffe0000000), // 2^-24 - 1
    f64::from_bits(0xbfefffffc0000000), // 2^-23 - 1
    f64::from_bits(0xbfefffff80000000), // 2^-22 - 1
    f64::from_bits(0xbfefffff00000000), // 2^-21 - 1
    f64::from_bits(0xbfeffffe00000000), // 2^-20 - 1
    f64::from_bits(0xbfeffffc00000000), // 2^-19 - 1
    f64::from_bits(0xbfeffff800000000), // 2^-18 - 1
    f64::from_bits(0xbfeffff000000000), // 2^-17 - 1
    f64::from_bits(0xbfefffe000000000), // 2^-16 - 1
    f64::from_bits(0xbfefffc000000000), // 2^-15 - 1
    f64::from_bits(0xbfefff8000000000), // 2^-14 - 1
    f64::from_bits(0xbfefff0000000000), // 2^-13 - 1
    f64::from_bits(0xbfeffe0000000000), // 2^-12 - 1
    f64::from_bits(0xbfeffc0000000000), // 2^-11 - 1
    f64::from_bits(0xbfeff80000000000), // 2^-10 - 1
    f64::from_bits(0xbfeff00000000000), // 2^-9 - 1
    f64::from_bits(0xbfefe00000000000), // 2^-8 - 1
    f64::from_bits(0xbfefc00000000000), // 2^-7 - 1
    f64::from_bits(0xbfef800000000000), // 2^-6 - 1
    f64::from_bits(0xbfef000000000000), // 2^-5 - 1
    f64::from_bits(0xbfee000000000000), // 2^-4 - 1
    f64::from_bits(0xbfec000000000000), // 2^-3 - 1
    f64::from_bits(0xbfe8000000000000), // 2^-2 - 1
    f64::from_bits(0xbfe0000000000000), // 2^-1 - 1
    f64::from_bits(0x0000000000000000), // 2^0 - 1
    f64::from_bits(0x3ff0000000000000), // 2^1 - 1
    f64::from_bits(0x4008000000000000), // 2^2 - 1
    f64::from_bits(0x401c000000000000), // 2^3 - 1
    f64::from_bits(0x402e000000000000), // 2^4 - 1
    f64::from_bits(0x403f000000000000), // 2^5 - 1
    f64::from_bits(0x404f800000000000), // 2^6 - 1
    f64::from_bits(0x405fc00000000000), // 2^7 - 1
    f64::from_bits(0x406fe00000000000), // 2^8 - 1
    f64::from_bits(0x407ff00000000000), // 2^9 - 1
    f64::from_bits(0x408ff80000000000), // 2^10 - 1
    f64::from_bits(0x409ffc0000000000), // 2^11 - 1
    f64::from_bits(0x40affe0000000000), // 2^12 - 1
    f64::from_bits(0x40bfff0000000000), // 2^13 - 1
    f64::from_bits(0x40cfff8000000000), // 2^14 - 1
    f64::from_bits(0x40dfffc000000000), // 2^15 - 1
    f64::from_bits(0x40efffe000000000), // 2^16 - 1
    f64::from_bits(0x40fffff000000000), // 2^17 - 1
    f64::from_bits(0x410ffff800000000), // 2^18 - 1
    f64::from_bits(0x411ffffc00000000), // 2^19 - 1
    f64::from_bits(0x412ffffe00000000), // 2^20 - 1
    f64::from_bits(0x413fffff00000000), // 2^21 - 1
    f64::from_bits(0x414fffff80000000), // 2^22 - 1
    f64::from_bits(0x415fffffc0000000), // 2^23 - 1
    f64::from_bits(0x416fffffe0000000), // 2^24 - 1
    f64::from_bits(0x417ffffff0000000), // 2^25 - 1
    f64::from_bits(0x418ffffff8000000), // 2^26 - 1
    f64::from_bits(0x419ffffffc000000), // 2^27 - 1
    f64::from_bits(0x41affffffe000000), // 2^28 - 1
    f64::from_bits(0x41bfffffff000000), // 2^29 - 1
    f64::from_bits(0x41cfffffff800000), // 2^30 - 1
    f64::from_bits(0x41dfffffffc00000), // 2^31 - 1
    f64::from_bits(0x41efffffffe00000), // 2^32 - 1
    f64::from_bits(0x41fffffffff00000), // 2^33 - 1
    f64::from_bits(0x420ffffffff80000), // 2^34 - 1
    f64::from_bits(0x421ffffffffc0000), // 2^35 - 1
    f64::from_bits(0x422ffffffffe0000), // 2^36 - 1
    f64::from_bits(0x423fffffffff0000), // 2^37 - 1
    f64::from_bits(0x424fffffffff8000), // 2^38 - 1
    f64::from_bits(0x425fffffffffc000), // 2^39 - 1
    f64::from_bits(0x426fffffffffe000), // 2^40 - 1
    f64::from_bits(0x427ffffffffff000), // 2^41 - 1
    f64::from_bits(0x428ffffffffff800), // 2^42 - 1
    f64::from_bits(0x429ffffffffffc00), // 2^43 - 1
    f64::from_bits(0x42affffffffffe00), // 2^44 - 1
    f64::from_bits(0x42bfffffffffff00), // 2^45 - 1
    f64::from_bits(0x42cfffffffffff80), // 2^46 - 1
    f64::from_bits(0x42dfffffffffffc0), // 2^47 - 1
    f64::from_bits(0x42efffffffffffe0), // 2^48 - 1
    f64::from_bits(0x42fffffffffffff0), // 2^49 - 1
    f64::from_bits(0x430ffffffffffff8), // 2^50 - 1
    f64::from_bits(0x431ffffffffffffc), // 2^51 - 1
    f64::from_bits(0x432ffffffffffffe), // 2^52 - 1
    f64::from_bits(0x433fffffffffffff), // 2^53 - 1
];

// 2^x - 1 is exact for x integer, -53 <= x <= 53
pub fn exp2m1_whole(x: f64) -> f64
    requires { Whole x }
    ensures { result ≡ exp2m1_whole x }
{
    score_at(&SCORES, x)
}

// The score of x in a table that passes the test of specs/Table.antt.
fn score_at(scores: &[f64; 107], x: f64) -> f64
    requires { Whole x × T (all_exact scores.now) }
    ensures { result ≡ exp2m1_whole x }
{
    scores[(x + 53.0) as usize]
}
