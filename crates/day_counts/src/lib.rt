// No code: the counters of a replayed day are the frames of its events.

#![tactic(auto)]
