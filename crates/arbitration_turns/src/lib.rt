#![tactic(auto)]

// The turns of a run: a pass over a table of modules, and what the sequencer makes of it. That they are 01's steps 1
// to 4 is proved in proofs/; there is no code.
