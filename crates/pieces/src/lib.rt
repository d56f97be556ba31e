// A string of bytes as pieces one behind the other: definitions and laws, no code.

#![tactic(auto)]
