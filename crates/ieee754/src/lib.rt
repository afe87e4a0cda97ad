// The operations of IEEE 754-2019 on binary64 that the language lacks. It has no functions: specs/Operations.antt defines them, and
// proofs/Examples.antt works them out on each special case; the crates `multiply_add`, `integral` and `scaling` compute them.
#![tactic(auto)]
