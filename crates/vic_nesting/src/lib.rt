// Lists of accesses to the interrupt controllers: what is in service, and any nesting of takes and ends. Definitions and theorems, no
// code.

#![tactic(auto)]
