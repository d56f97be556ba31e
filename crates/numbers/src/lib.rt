// Which numbers each call answers: specs/, proved in proofs/. No code.

#![tactic(auto)]
