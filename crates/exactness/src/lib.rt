// Where floating-point operations lose nothing. It has no functions: specs/Values.antt defines the whole number that a float stands for, and proofs/
// has the theorems, from whole numbers up to floats: TwoSum, TwoProduct and Dekker. The crates `dekker` and `double_double` compute by them.
#![tactic(auto)]
