// What a module puts on its lines, in I2C and in SPI.
ghost use Rattle.std.specs.Prelude.{◌≡◌};
ghost use Rattle.usi.specs.Module.{lines as lines_rule, spi_lines, pulls_sda, pulls_scl};

use crate::{Lines, SpiLines, Usi};
use usi_spi::Driven;

impl Usi {
    // I2C's two lines.
    pub fn lines(self) -> Lines
        ensures { result ≡ lines_rule self }
    {
        if !self.fits() {
            return Lines {
                scl: false,
                sda: false,
            };
        }
        let driven = usi_i2c::drives(self.usictl0, self.usictl1, self.phase);
        let held = usi_i2c::holds(self.usictl1, self.usicnt, self.stretch);
        Lines {
            scl: driven | held,
            sda: usi_i2c::pulls_sda(true, self.enable, self.latch),
        }
    }

    // SPI's lines.
    pub fn spi_lines(self) -> SpiLines
        ensures { result ≡ spi_lines self }
    {
        if self.fits_spi() {
            return SpiLines {
                sclk: usi_spi::clock_line(self.usictl0, self.usickctl, self.phase),
                sdo: usi_spi::data_line(self.enable, self.latch),
            };
        }
        SpiLines {
            sclk: Driven::Released,
            sdo: Driven::Released,
        }
    }

    // Whether the module pulls SDA low.
    pub fn pulls_sda(self) -> bool
        ensures { result ≡ pulls_sda self }
    {
        usi_i2c::pulls_sda(self.fits(), self.enable, self.latch)
    }

    // Whether the module pulls SCL low.
    pub fn pulls_scl(self) -> bool
        ensures { result ≡ pulls_scl self }
    {
        let driven = usi_i2c::drives(self.usictl0, self.usictl1, self.phase);
        let held = usi_i2c::holds(self.usictl1, self.usicnt, self.stretch);
        self.fits() & (driven | held)
    }
}
