// What a capture is made of and read to: specs/, proved in proofs/. No code.

#![tactic(auto)]
