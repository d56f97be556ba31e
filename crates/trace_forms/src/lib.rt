// A trace that is written reads back the same, and one that reads is one that is written: specs/, proved in proofs/. No code.

#![tactic(auto)]
