// The status words of the interrupt controllers and FIQ, input by input: definitions and theorems, no code.

#![tactic(auto)]
