// A block that is made is a good one, and a good one is a block that is made: specs/, proved in proofs/. No code.

#![tactic(auto)]
