// The hidden state: at rest, the output latch and its enable, and what a write leaves of it.
ghost use Rattle.std.specs.Prelude.{◌≡◌};
ghost use Rattle.usi.specs.Module.{at_rest};
ghost use Rattle.usi.specs.Step.{latched as latched_rule, followed as followed_rule, kept as kept_rule};
ghost use Rattle.usi.specs.Step.{settled as settled_rule};

use crate::{Usi, spi};

impl Usi {
    // The hidden state at rest.
    fn at_rest(mut self) -> Usi
        ensures { result ≡ at_rest self }
    {
        self.latch = true;
        self.enable = false;
        self.phase = true;
        self.seen = false;
        self.scl = false;
        self.sda = false;
        self.stretch = false;
        self
    }

    // The latch takes the next bit to send, and the enable takes OE.
    pub(crate) fn latched(mut self) -> Usi
        ensures { result ≡ latched_rule self }
    {
        let latch = usi_i2c::first_bit(self.usisrl);
        let enable = usi_registers::output_enable(self.usictl0);
        self.latch = latch;
        self.enable = enable;
        self
    }

    // With GE=1 the latch follows.
    pub(crate) fn followed(self) -> Usi
        ensures { result ≡ followed_rule self }
    {
        if usi_registers::transparent(self.usictl0) {
            return self.latched();
        }
        self
    }

    // The hidden state is kept where the set-up was the same before.
    fn kept(self, same: bool) -> Usi
        ensures { result ≡ kept_rule same self }
    {
        if same {
            return self;
        }
        self.at_rest()
    }

    // The hidden state after a write, told the module before it.
    pub(crate) fn settled(self, before: Usi) -> Usi
        ensures { result ≡ settled_rule before self }
    {
        if self.fits() {
            return self.kept(before.fits()).followed();
        }
        if self.fits_spi() {
            return spi::followed(self.kept(before.fits_spi()));
        }
        self.at_rest()
    }
}
