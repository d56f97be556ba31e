// A replayed day beside direct calls, and as a list of steps, over which demand 3 is stated: specs/. No code.

#![tactic(auto)]
