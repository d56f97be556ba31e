// The first place of a list at which a test holds: definition and laws, no code.

#![tactic(auto)]
