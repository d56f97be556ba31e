// Lists on a ring of one, of two and of 32 that demand 3 speaks of, a burst among them, and two that show that it needs polling:
// proofs/. No code.

#![tactic(auto)]
