// I2C arbitration as document 01 rules it (01: the clash runner): the limits, and what arbitrate replies. The rules
// are definitions in specs/, the theorems about them in proofs/; crates arbitration_checks, arbitration_run and
// arbitration are the code.
#![tactic(auto)]

use laws::Refusal;

// The most masters that start together, and the most bytes of a message.
pub const MAX_MASTERS: usize = 16;

pub const MAX_LENGTH: usize = 64;

// What became of one master: it is still contending (01: still in), or it lost at a position, 9 · byte + bit (01: its
// place), 0 for the others; and the flags of USICTL1 that its writes cleared (02: Ask 12).
#[derive(Clone, Copy)]
pub struct Seat {
    pub contending: bool,
    pub position: u16,
    pub cleared: u8,
}

// The reply. A refused one has the refusal's number and place, and 0 for all else.
#[derive(Clone, Copy)]
pub struct Arbitrated {
    pub refusal: Refusal,
    // how many bytes the bus carried (01: k)
    pub count: usize,
    pub seats: [Seat; MAX_MASTERS],
}
