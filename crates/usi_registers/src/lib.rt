// The USI's registers: their bits and fields by position, the set-up, and what a write to USICNT does to the flags.
// Crates usi_i2c and usi_spi have the rules of edges, ticks and lines, and crate usi composes them.
#![tactic(auto)]

ghost use Rattle.std.specs.Prelude.{◌≡◌, ◌+◌, ◌*◌};
ghost use Rattle.usi_registers.specs.Rules.{divider, counting as counting_rule};
ghost use Rattle.usi_registers.specs.Rules.{fits as fits_rule, fits_spi, count_flags, cleared as cleared_rule};
ghost use Rattle.usi_registers.specs.Rules.{output_enable, transparent as transparent_rule};

// USICTL0
pub const USIPE7: u8 = 0x80;

pub const USIPE6: u8 = 0x40;

pub const USIPE5: u8 = 0x20;

pub const USILSB: u8 = 0x10;

pub const USIMST: u8 = 0x08;

pub const USIGE: u8 = 0x04;

pub const USIOE: u8 = 0x02;

pub const USISWRST: u8 = 0x01;

// USICTL1
pub const USICKPH: u8 = 0x80;

pub const USII2C: u8 = 0x40;

pub const USISTTIE: u8 = 0x20;

pub const USIIE: u8 = 0x10;

pub const USIAL: u8 = 0x08;

pub const USISTP: u8 = 0x04;

pub const USISTTIFG: u8 = 0x02;

pub const USIIFG: u8 = 0x01;

pub const USIFLAGS: u8 = 0x0f;

// USICKCTL
pub const USICKPL: u8 = 0x02;

pub const USISWCLK: u8 = 0x01;

// USICNT
pub const USISCLREL: u8 = 0x80;

pub const USI16B: u8 = 0x40;

pub const USIIFGCC: u8 = 0x20;

pub const USICNTX: u8 = 0x1f;

// USISRL: the bit sent first
pub const FIRST_BIT: u8 = 0x80;

// DIV, the clock divider of USICKCTL.
pub fn divider(usickctl: u8) -> u8
    ensures { result ≡ divider usickctl }
{
    (usickctl >> 5) & 0x07
}

// CNT above 0.
pub fn counting(usicnt: u8) -> bool
    ensures { result ≡ counting_rule usicnt }
{
    usicnt & USICNTX != 0
}

// Four registers as a word, USICTL0 lowest.
fn word(usictl0: u8, usictl1: u8, usickctl: u8, usicnt: u8) -> u32
    ensures { result ≡ (usicnt * 256 + usickctl) * 65536 + (usictl1 * 256 + usictl0) }
{
    let control = (usictl1 as u32) * 256 + usictl0 as u32;
    let clock = (usicnt as u32) * 256 + usickctl as u32;
    clock * 65536 + control
}

// The bits of I2C's set-up in that word, and those of them that are 1.
const SET_UP: u32 = (USI16B as u32) * 16777216
    + (USICKPL as u32) * 65536
    + ((USII2C | USICKPH) as u32) * 256
    + (USIPE7 | USIPE6 | USILSB | USISWRST) as u32;

const SET_UP_ONES: u32 = (USICKPL as u32) * 65536
    + (USII2C as u32) * 256
    + (USIPE7 | USIPE6) as u32;

// The set-up is that of I2C mode, out of reset: its eight bits tested at once.
pub fn fits(usictl0: u8, usictl1: u8, usickctl: u8, usicnt: u8) -> bool
    ensures { result ≡ fits_rule usictl0 usictl1 usickctl usicnt }
{
    word(usictl0, usictl1, usickctl, usicnt) & SET_UP == SET_UP_ONES
}

// The set-up is that of SPI, out of reset.
pub fn fits_spi(usictl0: u8, usictl1: u8) -> bool
    ensures { result ≡ fits_spi usictl0 usictl1 }
{
    let released = usictl0 & USISWRST == 0;
    let pe5 = usictl0 & USIPE5 == USIPE5;
    let pe6 = usictl0 & USIPE6 == USIPE6;
    let pe7 = usictl0 & USIPE7 == USIPE7;
    (usictl1 & USII2C == 0) & released & pe5 & pe6 & pe7
}

// USICTL1 after a value is written to USICNT.
pub fn count_flags(usictl1: u8, value: u8) -> u8
    ensures { result ≡ count_flags usictl1 value }
{
    if !counting(value) {
        return usictl1 | USIIFG;
    }
    if value & USIIFGCC == 0 {
        return usictl1 & !(USIIFG | USISTP);
    }
    usictl1
}

// The flags of USICTL1 that were 1 before and are 0 after.
pub fn cleared(before: u8, after: u8) -> u8
    ensures { result ≡ cleared_rule before after }
{
    before & USIFLAGS & !after
}

// OE.
pub fn output_enable(usictl0: u8) -> bool
    ensures { result ≡ output_enable usictl0 }
{
    usictl0 & USIOE == USIOE
}

// GE: the output latch is transparent.
pub fn transparent(usictl0: u8) -> bool
    ensures { result ≡ transparent_rule usictl0 }
{
    usictl0 & USIGE == USIGE
}
