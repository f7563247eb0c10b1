#![tactic(auto)]

// The night run (02: Ask 14): rounds of arbitrations of the messages not yet carried, until none is left. The rules
// are definitions in specs/, the theorems about them in proofs/; there is no code.
