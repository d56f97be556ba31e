// What the IRQ answer of the interrupt controllers is, and what a refused access leaves: definitions and theorems, no code.

#![tactic(auto)]
