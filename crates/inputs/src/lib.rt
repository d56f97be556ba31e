// A burst as its single receives: specs/, proved in proofs/. No code.

#![tactic(auto)]
