// A string of events that is cut short, beside the whole one: proofs/. No code.

#![tactic(auto)]
