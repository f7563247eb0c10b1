#![tactic(auto)]

// What holds of dump and dump_reader together: the theorems in proofs/ over the definitions of both crates.
