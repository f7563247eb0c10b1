#![tactic(auto)]

// What holds of a transfer in SPI: the theorem in proofs/ over the module's steps and the register's shifts.
