// A sample of both lines, alone and with a tick after it.
ghost use Rattle.std.specs.Prelude.{◌≡◌};
ghost use Rattle.usi.specs.Cases.{finished as finished_rule, stepped as stepped_rule};
ghost use Rattle.usi.specs.Step.{module_of, sampled as sampled_rule, sample as sample_rule, sample_then};

use crate::{Refused, Usi, spi};

impl Usi {
    fn sampled(self, scl: bool, sda: bool) -> Usi
        ensures { result ≡ sampled_rule scl sda self }
    {
        self.edged(scl, sda).recorded(scl, sda).followed()
    }

    // A sample of both lines: SCL + 2 SDA, in SPI SCLK + 2 SDI.
    pub fn sample(self, level: u8) -> Result<Usi, Refused>
        ensures { result ≡ sample_rule self level }
    {
        if level > levels::MAX_LEVEL {
            return self.refused(4);
        }
        let scl = levels::scl(level);
        let sda = levels::sda(level);
        if self.fits() {
            return Ok(self.sampled(scl, sda));
        }
        if self.fits_spi() {
            return Ok(spi::sampled(self, scl, sda));
        }
        self.refused(3)
    }

    // The module after a sample; a refused one leaves it as it was.
    fn next_sample(self, level: u8) -> Usi
        ensures { result ≡ module_of (sample_rule self level) }
    {
        if level > levels::MAX_LEVEL {
            return self;
        }
        if self.fits() {
            return self.sampled(levels::scl(level), levels::sda(level));
        }
        if self.fits_spi() {
            return spi::sampled(self, levels::scl(level), levels::sda(level));
        }
        self
    }

    // The end of a sample in I2C: the tick where it is asked and not refused, and the latch follows once.
    fn finished(self, ticks: bool) -> Usi
        ensures { result ≡ finished_rule ticks self }
    {
        if !ticks | self.overruns() {
            return self.followed();
        }
        self.ticked()
    }

    // A sample in I2C and then, where asked, a tick.
    fn stepped(self, scl: bool, sda: bool, ticks: bool) -> Usi
        ensures { result ≡ stepped_rule scl sda ticks self }
    {
        self.edged(scl, sda).recorded(scl, sda).finished(ticks)
    }

    // A sample and then, where asked, a tick, each with its own tests.
    // Whether it ticks is a case of the rule (`sample_then`).
    fn two_steps(self, level: u8, ticks: bool) -> Usi
        ensures { result ≡ sample_then level ticks self }
    {
        let seen = self.next_sample(level);
        if ticks {
            return seen.next_tick();
        }
        seen
    }

    // The module after a sample and then, where asked, a tick; a refused step leaves it as it was.
    pub fn sample_tick(self, level: u8, ticks: bool) -> Usi
        ensures { result ≡ sample_then level ticks self }
    {
        if self.fits() & (level <= levels::MAX_LEVEL) {
            return self.stepped(levels::scl(level), levels::sda(level), ticks);
        }
        self.two_steps(level, ticks)
    }
}
