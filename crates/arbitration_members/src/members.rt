// What the masters know of themselves beside their modules, by value: an array for each fact, a place for each master.
ghost use Rattle.std.specs.Prelude.{◌≡◌, map};
ghost use Rattle.arbitration_rules.specs.Outcome.{byte_of, restarts};
ghost use Rattle.arbitration_members.specs.Members as rule;

use arbitration_pass::Effect;
use arbitration_rules::{MAX_LENGTH, MAX_MASTERS, Seat};

// What the writes of every master clear in USICTL1 over a run: STTIFG and IFG. That is a theorem about 01's steps
// (arbitration_rules/proofs/ClearedFlags.antt), so no write has to be watched.
const CLEARED: u8 = 0x03;

#[derive(Clone, Copy)]
pub struct Members {
    // who is still contending; who lost in the byte now on the bus; where each lost
    pub contending: [bool; MAX_MASTERS],
    pub lost: [bool; MAX_MASTERS],
    pub positions: [u16; MAX_MASTERS],
    // the byte that each is to send, and how many it has to send in all
    pub bytes: [u8; MAX_MASTERS],
    pub sizes: [u32; MAX_MASTERS],
}

// As many contend as there are messages.
fn with_message(count: usize) -> [bool; MAX_MASTERS]
    ensures { result ≡ rule.with_message count }
{
    let mut out = [false; MAX_MASTERS];
    for i in 0..count.min(MAX_MASTERS) {
        out[i] = true;
    }
    out
}

// How many bytes each has to send.
fn sizes_of(lengths: &[u32]) -> [u32; MAX_MASTERS]
    ensures { result ≡ rule.sizes_of lengths.now }
{
    let mut out = [0u32; MAX_MASTERS];
    for i in 0..lengths.len().min(MAX_MASTERS) {
        out[i] = lengths[i];
    }
    out
}

// The byte of what is sent, and of what each sends.
fn byte_of(sent: u16) -> u8
    ensures { result ≡ byte_of sent }
{
    (sent % 256) as u8
}

fn bytes_of(column: [u16; MAX_MASTERS]) -> [u8; MAX_MASTERS]
    ensures { result ≡ map byte_of column }
{
    let mut out = [0u8; MAX_MASTERS];
    for (i, sent) in column.iter().enumerate() {
        out[i] = byte_of(*sent);
    }
    out
}

// Where a master lost: who loses now, at this position.
fn lost_at(loses: bool, position: u16, before: u16) -> u16
    ensures { result ≡ rule.lost_at position before loses }
{
    if loses {
        return position;
    }
    before
}

// The position of a bit of the byte at an index, 9 · byte + bit.
fn position_of(index: usize, bit: u8) -> u16
    ensures { result ≡ rule.position_of index bit }
{
    if index < MAX_LENGTH {
        return (9 * index) as u16 + bit as u16;
    }
    0
}

fn seat_of(contending: bool, position: u16, cleared: u8) -> Seat
    ensures { result ≡ rule.seat_of cleared contending position }
{
    Seat {
        contending,
        position,
        cleared,
    }
}

// Who contends and has AL set has lost, at a position.
fn judged(
    contending: [bool; MAX_MASTERS],
    lost: [bool; MAX_MASTERS],
    positions: [u16; MAX_MASTERS],
    bytes: [u8; MAX_MASTERS],
    sizes: [u32; MAX_MASTERS],
    al: [bool; MAX_MASTERS],
    position: u16,
) -> Members
    ensures { result ≡ rule.judged position al
        (record { contending = contending; lost = lost; positions = positions; bytes = bytes; sizes = sizes }) }
{
    let mut still = contending;
    let mut out = lost;
    let mut places = positions;
    for i in 0..MAX_MASTERS {
        let loses = still[i] & al[i];
        still[i] = still[i] & !al[i];
        out[i] = out[i] | loses;
        places[i] = lost_at(loses, position, places[i]);
    }
    Members {
        contending: still,
        lost: out,
        positions: places,
        bytes,
        sizes,
    }
}

// Someone still contending has sent all of its message.
fn any_through(contending: [bool; MAX_MASTERS], sizes: [u32; MAX_MASTERS], sent: usize) -> bool
    ensures { result ≡ rule.any_through contending sizes sent }
{
    contending.iter().zip(&sizes).any(|(contending, size)| *contending & (*size as usize <= sent))
}

// Someone still contending has a restart before what it sends.
fn any_restarting(contending: [bool; MAX_MASTERS], column: [u16; MAX_MASTERS]) -> bool
    ensures { result ≡ rule.someone restarts contending column }
{
    contending
        .iter()
        .zip(&column)
        .any(|(contending, sent)| *contending & (*sent < 256))
}

// What became of the first so many masters; the other seats are empty.
fn seats(
    contending: [bool; MAX_MASTERS],
    positions: [u16; MAX_MASTERS],
    count: usize,
) -> [Seat; MAX_MASTERS]
    ensures { result ≡ rule.seats contending positions count }
{
    let mut out = [seat_of(false, 0, 0); MAX_MASTERS];
    for i in 0..count.min(MAX_MASTERS) {
        out[i] = seat_of(contending[i], positions[i], CLEARED);
    }
    out
}

impl Members {
    pub fn entered(lengths: &[u32]) -> Members
        ensures { result ≡ rule.entered lengths.now }
    {
        Members {
            contending: with_message(lengths.len()),
            lost: [false; MAX_MASTERS],
            positions: [0u16; MAX_MASTERS],
            bytes: [0u8; MAX_MASTERS],
            sizes: sizes_of(lengths),
        }
    }

    // Each takes the byte of what it sends.
    pub fn loaded(mut self, column: [u16; MAX_MASTERS]) -> Members
        ensures { result ≡ rule.loaded column self }
    {
        let bytes = bytes_of(column);
        self.bytes = bytes;
        self
    }

    // The byte in which they lost is over.
    fn settled(mut self) -> Members
        ensures { result ≡ rule.settled self }
    {
        self.lost = [false; MAX_MASTERS];
        self
    }

    // What follows for them from an instant of the byte at an index.
    pub fn affected(self, effect: Effect, al: [bool; MAX_MASTERS], index: usize) -> Members
        ensures { result ≡ rule.affected effect al index self }
    {
        match effect {
            Effect::Bit(bit) => {
                let contending = self.contending;
                let lost = self.lost;
                let positions = self.positions;
                let bytes = self.bytes;
                let sizes = self.sizes;
                let position = position_of(index, bit);
                judged(contending, lost, positions, bytes, sizes, al, position)
            }
            Effect::Settle => self.settled(),
            _ => self,
        }
    }

    // Someone still contending has sent all of its message.
    pub fn through(self, sent: usize) -> bool
        ensures { result ≡ rule.through sent self }
    {
        let contending = self.contending;
        let sizes = self.sizes;
        any_through(contending, sizes, sent)
    }

    // Someone still contending has a restart before what it sends.
    pub fn restarting(self, column: [u16; MAX_MASTERS]) -> bool
        ensures { result ≡ rule.restarting column self }
    {
        let contending = self.contending;
        any_restarting(contending, column)
    }

    // What became of the first so many masters; the other seats are empty.
    pub fn seats(self, count: usize) -> [Seat; MAX_MASTERS]
        ensures { result ≡ rule.seats self.contending self.positions count }
    {
        let contending = self.contending;
        let positions = self.positions;
        seats(contending, positions, count)
    }
}
