// Demands 1 and 3 over whole lists of calls of the service. It has no functions: specs/Demands.antt states them, by the joined bytes, frames and
// answers of specs/Stream.antt, and proofs/Demands.antt proves them; proofs/Examples.antt works them out for some lists and states.
#![tactic(auto)]
