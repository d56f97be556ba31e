// The device and the interrupt controllers side by side: neither changes the other. Definitions and theorems, no code.

#![tactic(auto)]
