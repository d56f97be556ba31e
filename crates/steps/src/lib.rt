// The lists of demand 3: their steps, where they start, what the firmware may do, and what holds all along: specs/ and proofs/. No
// code.

#![tactic(auto)]
