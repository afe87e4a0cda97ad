// What a finite number that is not zero is without its sign.

ghost use Rattle.std.specs.Prelude.{◌^◌, ◌≤◌, ◌<◌};

// m * 2^e in units of 2^-1126, with m of 53 digits.
#[derive(Clone, Copy)]
pub struct Parts {
    pub m: u64,
    pub e: u64,
    pub ghost low: { 2 ^ 52 ≤ m },
    pub ghost high: { m < 2 ^ 53 },
    pub ghost small: { e ≤ 2097 },
}
