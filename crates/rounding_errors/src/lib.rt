// How far a rounded result is from the exact one, and how far floats lie apart. It has no functions: specs/Spacing.antt defines the spacing of a
// pattern, and proofs/ has the bounds, in units of a format's smallest value: of a number rounded to p digits, and of sums and products of floats.
#![tactic(auto)]
