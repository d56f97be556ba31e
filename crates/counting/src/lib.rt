// No code: the counters equal the events of every history since reset, and what a row of ticks does.

#![tactic(auto)]
