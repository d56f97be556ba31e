// What the filter mode with the multicast hash takes where its registers are all ones or all zero: specs/ and proofs/. No code.

#![tactic(auto)]
