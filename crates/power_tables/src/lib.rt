// The tables T1 and T2 of exp2m1: double-double approximations of 2^(i/64) and of 2^(i/2^12), 64 pairs each. It has no functions:
// specs/Tables.antt has them by their bit patterns, and the crates table_t1 and table_t2 read them by an index.
#![tactic(auto)]
