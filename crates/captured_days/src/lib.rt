// The frames that a capture of a recorded day has: specs/, proved in proofs/. No code.

#![tactic(auto)]
