#![tactic(auto)]

// Document 01's worked numbers P1 to P12 (proofs/Worked.antt), and theorems of one line each to hold beside its rules
// (proofs/ModuleRules.antt, TraceRules.antt, ArbitrationRules.antt) and beside 02's of a repeated START
// (RestartRules.antt) and of the night (NightRules.antt): all of the replies of the functions, over the definitions
// that their contracts cite.
