// What a single send and a step run put out, and the step run as its single sends: specs/, proved in proofs/. No code.

#![tactic(auto)]
