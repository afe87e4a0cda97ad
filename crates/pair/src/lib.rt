// A pair hi, lo, which stands for the exact sum hi + lo. The double-double helpers take and return it, and the tables of powers hold it.
#![tactic(auto)]

#[derive(Clone, Copy)]
pub struct Pair {
    pub hi: f64,
    pub lo: f64,
}
