#![tactic(auto)]

// What holds of decode and encode together: the theorems in proofs/ over the definitions of crates encode and decode.
