// The sequencer of a run: which pass over the modules comes next, and what follows from what they then show.
ghost use Rattle.std.specs.Prelude.{◌≡◌, length};
ghost use Rattle.arbitration_run.specs.Sequence as rule;

use crate::wire::Wire;
use arbitration_members::Members;
use arbitration_pass::{Effect, Instant, Part, Pass, Seen};
use arbitration_rules::{MAX_LENGTH, MAX_MASTERS};

#[derive(Clone, Copy)]
pub struct Sequencer {
    pub running: bool,
    // the instant that comes next
    pub part: Part,
    pub at: usize,
    // what is sent at the index is still to be taken from the rows
    pub loading: bool,
    // how many bytes went before the one on the bus, and how many are carried
    pub index: usize,
    pub sent: usize,
    pub wire: Wire,
    pub members: Members,
}

// The acknowledge of the byte at an index: 0 pulls, 1 leaves SDA high.
fn acknowledge_at(acks: &[u8], index: usize) -> u8
    ensures { result ≡ rule.acknowledge_at acks.now index }
{
    if index < acks.len() {
        return acks[index];
    }
    0
}

// The byte that is complete with its last bit is carried, where there is room; how many are carried then.
fn carry(carried: &mut [u8], effect: Effect, sent: usize, byte: u8) -> usize
    ensures { (result ≡ rule.sent_after effect (length carried.old) sent)
        × (carried.new ≡ rule.carried_by effect sent byte carried.old) }
{
    match effect {
        Effect::Bit(bit) => {
            if (bit == 7) & (sent < carried.len()) {
                carried[sent] = byte;
                return sent + 1;
            }
            sent
        }
        _ => sent,
    }
}

impl Sequencer {
    // Before power-up, with messages of these lengths.
    pub fn first(lengths: &[u32]) -> Sequencer
        ensures { result ≡ rule.first lengths.now }
    {
        Sequencer {
            running: true,
            part: Part::Entry,
            at: 0,
            loading: false,
            index: 0,
            sent: 0,
            wire: Wire {
                scl: false,
                sda: false,
                pull: false,
                level: 0,
                byte: 0,
                recorded: 0,
            },
            members: Members::entered(lengths),
        }
    }

    fn instant(self) -> Instant
        ensures { result ≡ rule.instant_of self }
    {
        let part = self.part;
        part.instant(self.at)
    }

    // The pass that comes next.
    pub fn pass(self) -> Pass
        ensures { result ≡ rule.pass_of self }
    {
        let instant = self.instant();
        let operation = instant.operation;
        let wire = self.wire;
        let members = self.members;
        let contending = members.contending;
        let lost = members.lost;
        let bytes = members.bytes;
        Pass {
            operation,
            ticks: instant.ticks,
            level: wire.shown(),
            contending,
            lost,
            bytes,
        }
    }

    // Each master takes the byte of what it sends.
    fn taking(mut self, column: [u16; MAX_MASTERS]) -> Sequencer
        ensures { result ≡ rule.taking column self }
    {
        let members = self.members;
        let loaded = members.loaded(column);
        self.members = loaded;
        self.loading = false;
        self
    }

    // Each takes the byte of its row at the index; where someone restarts there, the restart comes first.
    pub fn loaded(self, rows: [[u16; MAX_LENGTH]; MAX_MASTERS]) -> Sequencer
        ensures { result ≡ rule.loaded rows self }
    {
        let column = arbitration_members::column(rows, self.index);
        let members = self.members;
        let loaded = self.taking(column);
        if members.restarting(column) {
            return loaded.entering(Part::Restart, false);
        }
        loaded
    }

    // Another part of the run begins.
    fn entering(self, part: Part, loading: bool) -> Sequencer
        ensures { result ≡ rule.entering part loading self }
    {
        let wire = self.wire;
        let members = self.members;
        Sequencer {
            running: self.running,
            part,
            at: 0,
            loading,
            index: self.index,
            sent: self.sent,
            wire,
            members,
        }
    }

    // The byte at the index is next, or step 4 where there is none.
    fn opened(self, acks: &[u8]) -> Sequencer
        ensures { result ≡ rule.opened acks.now self }
    {
        if self.index < acks.len() {
            return self.entering(Part::Byte, true);
        }
        self.entering(Part::Closing, false)
    }

    // After the last instant of a byte: step 4 where it is not acknowledged or someone is through.
    fn decided(mut self, acks: &[u8]) -> Sequencer
        ensures { result ≡ rule.decided acks.now self }
    {
        let index = self.index;
        if index < acks.len() {
            let refused = acks[index] == 1;
            let members = self.members;
            self.index = index + 1;
            if refused | members.through(index + 1) {
                return self.entering(Part::Closing, false);
            }
            return self.opened(acks);
        }
        self.entering(Part::Closing, false)
    }

    // After the last instant of a part.
    fn parted(mut self, acks: &[u8]) -> Sequencer
        ensures { result ≡ rule.parted acks.now self }
    {
        let part = self.part;
        match part {
            Part::Entry => self.entering(Part::Opening, false),
            Part::Opening => self.opened(acks),
            // the bytes are taken from the rows already
            Part::Restart => self.entering(Part::Byte, false),
            Part::Byte => self.decided(acks),
            Part::Closing => {
                self.running = false;
                self
            }
        }
    }

    // The instant after this one.
    fn advanced(mut self, acks: &[u8]) -> Sequencer
        ensures { result ≡ rule.advanced acks.now self }
    {
        let part = self.part;
        if self.at < part.last() {
            self.at += 1;
            return self;
        }
        self.parted(acks)
    }

    // What the instant does on the bus.
    fn affected(self, seen: Seen, acks: &[u8], carried: &mut [u8], levels: &mut [u8]) -> Sequencer
        ensures { (result ≡ rule.affected (length carried.old) (length levels.old)
            acks.now seen self)
            × (carried.new ≡ rule.carried_after acks.now seen self carried.old)
            × (levels.new ≡ rule.levels_after seen self levels.old) }
    {
        let instant = self.instant();
        let operation = instant.operation;
        let effect = instant.effect;
        let before = self.wire;
        let shown = before.saw(operation, seen);
        let wire = shown.affected(effect, acknowledge_at(acks, self.index) == 0, levels);
        let sent = carry(carried, effect, self.sent, wire.byte);
        let stood = self.members;
        let al = seen.al;
        let members = stood.affected(effect, al, self.index);
        let part = self.part;
        Sequencer {
            running: self.running,
            part,
            at: self.at,
            loading: self.loading,
            index: self.index,
            sent,
            wire,
            members,
        }
    }

    // The sequencer after its pass, of which the modules showed this.
    pub fn next(self, seen: Seen, acks: &[u8], carried: &mut [u8], levels: &mut [u8]) -> Sequencer
        ensures { (result ≡ rule.turned (length carried.old) (length levels.old)
            acks.now seen self)
            × (carried.new ≡ rule.carried_after acks.now seen self carried.old)
            × (levels.new ≡ rule.levels_after seen self levels.old) }
    {
        let after = self.affected(seen, acks, carried, levels);
        after.advanced(acks)
    }
}
