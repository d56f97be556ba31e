// What a refusal of reading, writing or replay leaves, and when each number is given: specs/. No code.

#![tactic(auto)]
