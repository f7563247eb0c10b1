// One pass over the modules: each makes its steps by value, and what it shows is noted.
ghost use Rattle.std.specs.Prelude.{◌≡◌};
ghost use Rattle.arbitration_pass.specs.Instants.{samples};
ghost use Rattle.arbitration_pass.specs.Pass as rule;

use crate::instants::Operation;
use arbitration_rules::MAX_MASTERS;
use usi::Usi;

#[derive(Clone, Copy)]
pub struct Pass {
    pub operation: Operation,
    pub ticks: bool,
    // the level of the wire, for a sample
    pub level: u8,
    // who is still contending, who lost in this byte, and what each is to send
    pub contending: [bool; MAX_MASTERS],
    pub lost: [bool; MAX_MASTERS],
    pub bytes: [u8; MAX_MASTERS],
}

// A pass that samples: the level of the wire, and whether a tick follows.
#[derive(Clone, Copy)]
pub struct Sampling {
    pub level: u8,
    pub ticks: bool,
}

// What the modules show after a pass: whether any pulls SCL, and SDA, and who has AL set.
#[derive(Clone, Copy)]
pub struct Seen {
    pub scl: bool,
    pub sda: bool,
    pub al: [bool; MAX_MASTERS],
}

// A register written, with the module that the write hands back.
fn written(usi: Usi, address: u16, value: u8) -> Usi
    ensures { result ≡ rule.written address value usi }
{
    match usi.write(address, value) {
        Ok(written) => written.usi,
        Err(refused) => refused.usi,
    }
}

// Powered up with shift bytes 0, then set up.
fn entered() -> Usi
    ensures { result ≡ rule.entered }
{
    let clocked = written(Usi::power_up(0, 0), Usi::USICKCTL, 0x22);
    written(written(clocked, Usi::USICTL1, 0x41), Usi::USICTL0, 0xc8)
}

// What who still contends writes.
fn wrote(usi: Usi, operation: Operation, byte: u8) -> Usi
    ensures { result ≡ rule.wrote operation byte usi }
{
    match operation {
        Operation::Enter => entered(),
        Operation::Sample => usi,
        Operation::Pull => {
            let low = written(usi, Usi::USISRL, 0x00);
            written(written(low, Usi::USICTL0, 0xce), Usi::USICTL0, 0xca)
        }
        Operation::Clear => written(usi, Usi::USICTL1, 0x41),
        Operation::Load => {
            let ready = written(written(usi, Usi::USISRL, byte), Usi::USICTL0, 0xca);
            written(ready, Usi::USICNT, 0x08)
        }
        Operation::LetGo => written(written(usi, Usi::USICTL0, 0xc8), Usi::USICNT, 0x01),
        Operation::Lower => {
            let low = written(written(usi, Usi::USICTL0, 0xca), Usi::USISRL, 0x00);
            written(low, Usi::USICNT, 0x01)
        }
        Operation::Raise => written(written(usi, Usi::USISRL, 0xff), Usi::USICTL0, 0xce),
        Operation::Rest => written(usi, Usi::USICTL0, 0xc8),
        Operation::Rise => {
            let high = written(written(usi, Usi::USISRL, 0xff), Usi::USICTL0, 0xca);
            written(high, Usi::USICNT, 0x01)
        }
        Operation::Heed => written(usi, Usi::USICTL1, 0x41),
    }
}

// What who lost in this byte writes.
fn yielded(usi: Usi, operation: Operation) -> Usi
    ensures { result ≡ rule.yielded operation usi }
{
    match operation {
        Operation::LetGo => written(written(usi, Usi::USICTL0, 0xc0), Usi::USICNT, 0x80),
        _ => usi,
    }
}

fn kept(usi: Usi, operation: Operation, lost: bool) -> Usi
    ensures { result ≡ rule.kept operation lost usi }
{
    if lost {
        return yielded(usi, operation);
    }
    usi
}

// What who lost in any byte so far writes.
// Whether it contends is a case of the rule (`heeded`), not a step that a caller chooses.
fn heeded(usi: Usi, operation: Operation, contending: bool) -> Usi
    ensures { result ≡ rule.heeded operation contending usi }
{
    if contending {
        return usi;
    }
    match operation {
        Operation::Heed => written(written(usi, Usi::USICTL1, 0x49), Usi::USICNT, 0x80),
        _ => usi,
    }
}

// The registers that a master writes, if it lost in this byte, if it lost at all, and if it contends.
// Whether it contends is a case of the rule (`wrote_as`), not a step that a caller chooses.
fn wrote_as(usi: Usi, operation: Operation, contending: bool, lost: bool, byte: u8) -> Usi
    ensures { result ≡ rule.wrote_as operation contending lost byte usi }
{
    let usi = heeded(kept(usi, operation, lost), operation, contending);
    if contending {
        return wrote(usi, operation, byte);
    }
    usi
}

fn ticked(usi: Usi, ticks: bool) -> Usi
    ensures { result ≡ rule.ticked ticks usi }
{
    if ticks {
        return usi.next_tick();
    }
    usi
}

// The module at an index after the registers are written, and perhaps a tick.
pub fn wrote_at(usi: Usi, pass: Pass, i: usize) -> Usi
    ensures { result ≡ rule.wrote_at pass i usi }
{
    let operation = pass.operation;
    if i < MAX_MASTERS {
        let wrote = wrote_as(
            usi,
            operation,
            pass.contending[i],
            pass.lost[i],
            pass.bytes[i],
        );
        return ticked(wrote, pass.ticks);
    }
    usi
}

// A module after a sample, and perhaps a tick.
pub fn sampled(usi: Usi, sampling: Sampling) -> Usi
    ensures { result ≡ rule.sampled sampling usi }
{
    usi.sample_tick(sampling.level, sampling.ticks)
}

impl Pass {
    // Whether the modules sample the wire.
    pub fn samples(self) -> bool
        ensures { result ≡ samples self.operation }
    {
        let operation = self.operation;
        match operation {
            Operation::Sample => true,
            _ => false,
        }
    }

    // What it samples.
    pub fn sampling(self) -> Sampling
        ensures { result ≡ rule.sampling self }
    {
        Sampling {
            level: self.level,
            ticks: self.ticks,
        }
    }
}

// What the module at an index shows joins what those before it show.
pub fn noted(mut seen: Seen, usi: Usi, i: usize) -> Seen
    ensures { result ≡ rule.noted seen i usi }
{
    let lines = usi.lines();
    seen.scl = seen.scl | lines.scl;
    seen.sda = seen.sda | lines.sda;
    if i < MAX_MASTERS {
        let lost = usi.usictl1 & usi_registers::USIAL == usi_registers::USIAL;
        // only where it changes: a byte just stored delays the next copy of the array
        if seen.al[i] != lost {
            seen.al[i] = lost;
        }
    }
    seen
}

// Nothing is seen yet.
pub fn unseen() -> Seen
    ensures { result ≡ rule.unseen }
{
    Seen {
        scl: false,
        sda: false,
        al: [false; MAX_MASTERS],
    }
}
