// Every public call on the bench as one type and one function: specs/. No code.

#![tactic(auto)]
