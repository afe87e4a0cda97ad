// How close a tiny score is (request A.9). It has no functions: specs/TinyScores.antt states the bound of the definition that `score` is proved
// equal to, and proofs/TinyScores.antt proves it; proofs/Examples.antt works it out, and shows that no tighter statement of some holds.
#![tactic(auto)]
