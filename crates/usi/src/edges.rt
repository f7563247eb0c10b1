// What the lines did since the last sample, in I2C: START and STOP, a bit at a rise, the latch at a fall.
ghost use Rattle.std.specs.Prelude.{◌≡◌};
ghost use Rattle.usi.specs.Cases.{stretched_by, condition_seen, rise_seen, fall_seen};
ghost use Rattle.usi.specs.Step.{arbitrated as arbitrated_rule, clocked as clocked_rule, bit_taken};
ghost use Rattle.usi.specs.Step.{recorded as recorded_rule, edged as edged_rule};

use crate::Usi;

impl Usi {
    // SCL stays high: START or STOP.
    fn condition_seen(mut self, sda: bool) -> Usi
        ensures { result ≡ condition_seen sda self }
    {
        let started = levels::start(true, self.sda, true, sda);
        let stopped = levels::stop(true, self.sda, true, sda);
        let flags = usi_i2c::condition_flags(self.usictl1, started, stopped);
        let count = usi_i2c::condition_count(self.usicnt, started);
        self.usictl1 = flags;
        self.usicnt = count;
        self.stretched(false, true)
    }

    // Arbitration at one bit.
    fn arbitrated(mut self, lost: bool) -> Usi
        ensures { result ≡ arbitrated_rule lost self }
    {
        let flags = usi_i2c::loss_flags(self.usictl1, lost);
        let control = usi_i2c::loss_control(self.usictl0, lost);
        self.usictl1 = flags;
        self.usictl0 = control;
        self.enable = self.enable & !lost;
        self
    }

    // A bit enters the shift register and is counted.
    fn clocked(mut self, sda: bool) -> Usi
        ensures { result ≡ clocked_rule sda self }
    {
        let flags = usi_i2c::end_flags(self.usictl1, self.usicnt);
        let count = usi_i2c::count_down(self.usicnt);
        let low = usi_i2c::shifted(self.usisrl, sda);
        self.usictl1 = flags;
        self.usicnt = count;
        self.usisrl = low;
        self
    }

    // One bit: arbitration, then the shift.
    fn bit_taken(self, sda: bool) -> Usi
        ensures { result ≡ bit_taken sda self }
    {
        let lost = usi_i2c::loses(self.usictl0, self.enable, self.latch, sda);
        self.arbitrated(lost).clocked(sda)
    }

    // SCL rises: with bits to count, one is taken.
    fn rise_seen(self, sda: bool) -> Usi
        ensures { result ≡ rise_seen sda self }
    {
        if usi_i2c::takes_bit(false, true, self.usicnt) {
            return self.bit_taken(sda).stretched(false, true);
        }
        self.stretched(false, true)
    }

    // SCL falls: the latch may take the next bit.
    fn fall_seen(self) -> Usi
        ensures { result ≡ fall_seen self }
    {
        if usi_i2c::moves_latch(self.usictl0, self.usicnt) {
            return self.latched().stretched(true, false);
        }
        self.stretched(true, false)
    }

    // Whether SCL was pulled low by another and is low still.
    fn stretched(mut self, fallen: bool, scl: bool) -> Usi
        ensures { result ≡ stretched_by fallen scl self }
    {
        let stretch = usi_i2c::stretch_after(self.stretch, fallen, self.phase, scl);
        self.stretch = stretch;
        self
    }

    // The levels are remembered.
    pub(crate) fn recorded(mut self, scl: bool, sda: bool) -> Usi
        ensures { result ≡ recorded_rule scl sda self }
    {
        self.seen = true;
        self.scl = scl;
        self.sda = sda;
        self
    }

    // What the lines did since the last sample, by the cases of SCL.
    // The levels are cases of the rule (`edged`).
    pub(crate) fn edged(self, scl: bool, sda: bool) -> Usi
        ensures { result ≡ edged_rule scl sda self }
    {
        if !self.seen {
            return self;
        }
        if scl {
            if self.scl {
                return self.condition_seen(sda);
            }
            return self.rise_seen(sda);
        }
        if self.scl {
            return self.fall_seen();
        }
        self
    }
}
