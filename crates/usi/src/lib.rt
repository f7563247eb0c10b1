// The USI module in I2C mode and in SPI: six register bytes and a hidden state, stepped by writes, samples and ticks.
#![tactic(auto)]

ghost use Rattle.std.specs.Prelude.{◌≡◌, Err};
ghost use Rattle.usi.specs.Module.{power_up, fits as fits_rule, fits_spi};
ghost use Rattle.usi.specs.Step.{refused, refusal as refusal_of, module_of};

mod access; // access.rt: byte and word access to the registers
mod edges; // edges.rt: what the lines did since the last sample, in I2C
mod hidden; // hidden.rt: the hidden state
mod outputs; // outputs.rt: what a module puts on its lines
mod samples; // samples.rt: a sample, alone and with a tick after it
mod spi; // spi.rt: SPI on the module
mod ticks; // ticks.rt: a tick of the module's clock

use usi_spi::Driven;

#[derive(Clone, Copy)]
pub struct Usi {
    pub usictl0: u8,
    pub usictl1: u8,
    pub usickctl: u8,
    pub usicnt: u8,
    pub usisrl: u8,
    pub usisrh: u8,
    // the output latch and the latched output enable
    pub latch: bool,
    pub enable: bool,
    // the clock phase, true when high (01: clock half); in SPI true when idle
    pub phase: bool,
    // whether levels are remembered, and the levels last seen; in SPI those of SCLK and SDI
    pub seen: bool,
    pub scl: bool,
    pub sda: bool,
    // SCL was pulled low by another and is low still (01: caught)
    pub stretch: bool,
}

// A step or a write that is refused: the refusal's number, and the module as it was.
#[derive(Clone, Copy)]
pub struct Refused {
    pub number: u8,
    pub usi: Usi,
}

// What a write answers that is not refused: the next module, and the flags of USICTL1 that were 1 before it and are 0
// after it (02: Ask 12).
#[derive(Clone, Copy)]
pub struct Written {
    pub usi: Usi,
    pub cleared: u8,
}

// Which lines a module pulls low.
#[derive(Clone, Copy)]
pub struct Lines {
    pub scl: bool,
    pub sda: bool,
}

// What a module drives in SPI.
#[derive(Clone, Copy)]
pub struct SpiLines {
    pub sclk: Driven,
    pub sdo: Driven,
}

// The refusal's number; 0: not refused.
pub fn refusal(step: Result<Usi, Refused>) -> u8
    ensures { result ≡ refusal_of step }
{
    match step {
        Ok(_) => 0,
        Err(refused) => refused.number,
    }
}

// The module that a step hands back.
pub fn module(step: Result<Usi, Refused>) -> Usi
    ensures { result ≡ module_of step }
{
    match step {
        Ok(u) => u,
        Err(refused) => refused.usi,
    }
}

impl Usi {
    pub const USICTL0: u16 = 0x078;

    pub const USICTL1: u16 = 0x079;

    pub const USICKCTL: u16 = 0x07a;

    pub const USICNT: u16 = 0x07b;

    pub const USISRL: u16 = 0x07c;

    pub const USISRH: u16 = 0x07d;

    pub const USICTL0_POWER_UP: u8 = 0x01;

    pub const USICTL1_POWER_UP: u8 = 0x01;

    pub const USICKCTL_POWER_UP: u8 = 0x00;

    pub const USICNT_POWER_UP: u8 = 0x00;

    // The module after power-up, which keeps the two shift bytes.
    pub fn power_up(low: u8, high: u8) -> Usi
        ensures { result ≡ power_up low high }
    {
        Usi {
            usictl0: Usi::USICTL0_POWER_UP,
            usictl1: Usi::USICTL1_POWER_UP,
            usickctl: Usi::USICKCTL_POWER_UP,
            usicnt: Usi::USICNT_POWER_UP,
            usisrl: low,
            usisrh: high,
            latch: true,
            enable: false,
            phase: true,
            seen: false,
            scl: false,
            sda: false,
            stretch: false,
        }
    }

    // A step that is refused, with the module as it was.
    pub(crate) fn refused(self, number: u8) -> Result<Usi, Refused>
        ensures { result ≡ Err (refused number self) }
    {
        Err(Refused { number, usi: self })
    }

    // The set-up fits I2C mode.
    pub fn fits(self) -> bool
        ensures { result ≡ fits_rule self }
    {
        usi_registers::fits(self.usictl0, self.usictl1, self.usickctl, self.usicnt)
    }

    // The set-up fits SPI.
    pub fn fits_spi(self) -> bool
        ensures { result ≡ fits_spi self }
    {
        usi_registers::fits_spi(self.usictl0, self.usictl1)
    }
}
