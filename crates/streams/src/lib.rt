// Demand 3 for pieces that are handed on, and for whole streams. It has no functions: specs/Streams.antt states it, and proofs/Streams.antt
// proves it.
#![tactic(auto)]
