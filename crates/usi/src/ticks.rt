// A tick of the module's clock.
ghost use Rattle.std.specs.Prelude.{◌≡◌};
ghost use Rattle.usi.specs.Step.{module_of, overruns as overruns_rule, ticked as ticked_rule};
ghost use Rattle.usi.specs.Step.{tick_i2c, tick as tick_rule};

use crate::{Refused, Usi, spi};

impl Usi {
    pub(crate) fn ticked(mut self) -> Usi
        ensures { result ≡ ticked_rule self }
    {
        let clocking = usi_i2c::clocks(self.usictl0, self.usictl1, self.usicnt);
        let phase = usi_i2c::phase_after(clocking, self.phase, self.seen, self.scl);
        self.phase = phase;
        self.followed()
    }

    // A tick would have to wait for SCL, and the divider is 1, which does not wait.
    pub(crate) fn overruns(self) -> bool
        ensures { result ≡ overruns_rule self }
    {
        if usi_registers::divider(self.usickctl) != 0 {
            return false;
        }
        let clocking = usi_i2c::clocks(self.usictl0, self.usictl1, self.usicnt);
        usi_i2c::overruns(self.usickctl, clocking, self.phase, self.seen, self.scl)
    }

    // A tick of the module's clock in I2C.
    fn tick_i2c(self) -> Result<Usi, Refused>
        ensures { result ≡ tick_i2c self }
    {
        if self.overruns() {
            return self.refused(17);
        }
        Ok(self.ticked())
    }

    // A tick of the module's clock.
    pub fn tick(self) -> Result<Usi, Refused>
        ensures { result ≡ tick_rule self }
    {
        if self.fits() {
            return self.tick_i2c();
        }
        if self.fits_spi() {
            return Ok(spi::ticked(self));
        }
        self.refused(3)
    }

    // The module after a tick; a refused one leaves it as it was.
    pub fn next_tick(self) -> Usi
        ensures { result ≡ module_of (tick_rule self) }
    {
        if self.fits() {
            if self.overruns() {
                return self;
            }
            return self.ticked();
        }
        if self.fits_spi() {
            return spi::ticked(self);
        }
        self
    }
}
