// Descriptors in a row by their next words, ending or closing a ring: specs/. Their laws, and what a ring check gives: proofs/. No code.

#![tactic(auto)]
