// Where a call changes memory, output and device: specs/, proved in proofs/. No code.

#![tactic(auto)]
