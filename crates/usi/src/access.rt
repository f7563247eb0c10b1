// Byte and word access to the registers.
ghost use Rattle.std.specs.Prelude.{◌≡◌, ◌+◌, ◌*◌};
ghost use Rattle.usi.specs.Step.{read_byte, read_word, write_byte, write_word};
ghost use Rattle.usi.specs.Step.{answered as answered_by, written, written_word};

use crate::{Refused, Usi, Written};
use laws::{Refusal, refused};

// The answer of a write by its step, and USICTL1 before it.
fn answered(before: u8, step: Result<Usi, Refused>) -> Result<Written, Refused>
    ensures { result ≡ answered_by before step }
{
    let usi = step?;
    Ok(Written {
        usi,
        cleared: usi_registers::cleared(before, usi.usictl1),
    })
}

impl Usi {
    // A register's byte.
    pub fn read(self, address: u16) -> Result<u16, Refusal>
        ensures { result ≡ read_byte self address }
    {
        match address {
            Usi::USICTL0 => Ok(self.usictl0 as u16),
            Usi::USICTL1 => Ok(self.usictl1 as u16),
            Usi::USICKCTL => Ok(self.usickctl as u16),
            Usi::USICNT => Ok(self.usicnt as u16),
            Usi::USISRL => Ok(self.usisrl as u16),
            Usi::USISRH => Ok(self.usisrh as u16),
            _ => refused(1, 0),
        }
    }

    // Two registers as a word, low byte at an even address.
    pub fn read_word(self, address: u16) -> Result<u16, Refusal>
        ensures { result ≡ read_word self address }
    {
        if address % 2 == 1 {
            return refused(2, 0);
        }
        match address {
            Usi::USICTL0 => Ok(Usi::word(self.usictl0, self.usictl1)),
            Usi::USICKCTL => Ok(Usi::word(self.usickctl, self.usicnt)),
            Usi::USISRL => Ok(Usi::word(self.usisrl, self.usisrh)),
            _ => refused(1, 0),
        }
    }

    // Two bytes as a word.
    fn word(low: u8, high: u8) -> u16
        ensures { result ≡ low + 256 * high }
    {
        (low as u16) + 256 * (high as u16)
    }

    // A byte stored in a register, as a step.
    fn stored(mut self, address: u16, value: u8) -> Result<Usi, Refused>
        ensures { result ≡ write_byte self address value }
    {
        let before = self;
        match address {
            Usi::USICTL0 => {
                self.usictl0 = value;
                Ok(self.settled(before))
            }
            Usi::USICTL1 => {
                self.usictl1 = value;
                Ok(self.settled(before))
            }
            Usi::USICKCTL => {
                self.usickctl = value;
                Ok(self.settled(before))
            }
            Usi::USICNT => {
                self.usictl1 = usi_registers::count_flags(self.usictl1, value);
                self.usicnt = value;
                Ok(self.settled(before))
            }
            Usi::USISRL => {
                self.usisrl = value;
                Ok(self.settled(before))
            }
            Usi::USISRH => {
                self.usisrh = value;
                Ok(self.settled(before))
            }
            _ => self.refused(1),
        }
    }

    // A word stored: the low byte, then the high byte.
    fn stored_word(self, address: u16, value: u16) -> Result<Usi, Refused>
        ensures { result ≡ write_word self address value }
    {
        if address % 2 == 1 {
            return self.refused(2);
        }
        let low = self.stored(address, (value % 256) as u8)?;
        low.stored(address + 1, (value / 256) as u8)
    }

    // A byte written to a register.
    pub fn write(self, address: u16, value: u8) -> Result<Written, Refused>
        ensures { result ≡ written self address value }
    {
        answered(self.usictl1, self.stored(address, value))
    }

    // A word written: the low byte's write, then the high byte's.
    pub fn write_word(self, address: u16, value: u16) -> Result<Written, Refused>
        ensures { result ≡ written_word self address value }
    {
        answered(self.usictl1, self.stored_word(address, value))
    }
}
