// A list with a burst does what the list does that has its single receives: specs/, proved in proofs/. No code.

#![tactic(auto)]
