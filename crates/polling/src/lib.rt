// What number 8 leaves of an engine, with polling and without: specs/, proved in proofs/. No code.

#![tactic(auto)]
