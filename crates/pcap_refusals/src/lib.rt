// When export and import of a capture give each number, and that a refusal changes nothing: specs/, proved in proofs/. No code.

#![tactic(auto)]
