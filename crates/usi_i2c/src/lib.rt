// The rules of I2C mode: what a sample's edges and a tick do, and which lines are pulled, one function to a rule of
// document 01 on register bytes and hidden bits.
#![tactic(auto)]

ghost use Rattle.std.specs.Prelude.{◌≡◌};
ghost use Rattle.usi_i2c.specs.Rules.{condition_flags, condition_count, takes_bit, loses as loses_rule, loss_control};
ghost use Rattle.usi_i2c.specs.Rules.{loss_flags};
ghost use Rattle.usi_i2c.specs.Rules.{shifted as shifted_rule, count_down, end_flags, moves_latch, first_bit};
ghost use Rattle.usi_i2c.specs.Rules.{stretch_after};
ghost use Rattle.usi_i2c.specs.Rules.{clocks as clocks_rule, phase_after, pulls_sda, drives as drives_rule};
ghost use Rattle.usi_i2c.specs.Rules.{holds as holds_rule, overruns as overruns_rule};

use usi_registers::{
    FIRST_BIT, USIAL, USICNTX, USIGE, USIIFG, USIMST, USIOE, USISCLREL, USISTP, USISTTIFG,
};

// USICTL1 after a START or a STOP.
pub fn condition_flags(usictl1: u8, started: bool, stopped: bool) -> u8
    ensures { result ≡ condition_flags usictl1 started stopped }
{
    if started {
        return usictl1 | USISTTIFG;
    }
    if stopped {
        return usictl1 | USISTP;
    }
    usictl1
}

// USICNT after a START.
pub fn condition_count(usicnt: u8, started: bool) -> u8
    ensures { result ≡ condition_count usicnt started }
{
    if started {
        return usicnt & !USISCLREL;
    }
    usicnt
}

// SCL rises with bits to count.
pub fn takes_bit(scl_before: bool, scl: bool, usicnt: u8) -> bool
    ensures { result ≡ takes_bit scl_before scl usicnt }
{
    !scl_before & scl & (usicnt & USICNTX != 0)
}

// A master that drives SDA finds another level on it.
pub fn loses(usictl0: u8, enable: bool, latch: bool, sda: bool) -> bool
    ensures { result ≡ loses_rule usictl0 enable latch sda }
{
    (usictl0 & USIMST == USIMST) & enable & (latch != sda)
}

// USICTL0 after arbitration at one bit.
pub fn loss_control(usictl0: u8, lost: bool) -> u8
    ensures { result ≡ loss_control usictl0 lost }
{
    if lost {
        return usictl0 & !USIOE;
    }
    usictl0
}

// USICTL1 after arbitration at one bit.
pub fn loss_flags(usictl1: u8, lost: bool) -> u8
    ensures { result ≡ loss_flags usictl1 lost }
{
    if lost {
        return usictl1 | USIAL;
    }
    usictl1
}

// USISRL with SDA entering at bit 0.
pub fn shifted(usisrl: u8, sda: bool) -> u8
    ensures { result ≡ shifted_rule usisrl sda }
{
    bits::shift_in(usisrl, sda)
}

// USICNT with CNT one less, where it was above 0.
pub fn count_down(usicnt: u8) -> u8
    ensures { result ≡ count_down usicnt }
{
    let count = usicnt & USICNTX;
    if count == 0 {
        return usicnt & !USICNTX;
    }
    (usicnt & !USICNTX) | (count - 1)
}

// USICTL1 as CNT falls from 1 to 0.
pub fn end_flags(usictl1: u8, usicnt: u8) -> u8
    ensures { result ≡ end_flags usictl1 usicnt }
{
    if usicnt & USICNTX == 1 {
        return usictl1 | USIIFG;
    }
    usictl1
}

// As SCL falls, the latch takes the next bit.
pub fn moves_latch(usictl0: u8, usicnt: u8) -> bool
    ensures { result ≡ moves_latch usictl0 usicnt }
{
    (usicnt & USICNTX != 0) & (usictl0 & USIGE == 0)
}

// The bit of USISRL that is sent next.
pub fn first_bit(usisrl: u8) -> bool
    ensures { result ≡ first_bit usisrl }
{
    usisrl & FIRST_BIT == FIRST_BIT
}

// Whether SCL was pulled low by another and is low still.
pub fn stretch_after(stretch: bool, fallen: bool, phase: bool, scl: bool) -> bool
    ensures { result ≡ stretch_after stretch fallen phase scl }
{
    (stretch | (fallen & phase)) & !scl
}

// A master with bits to count generates the clock.
pub fn clocks(usictl0: u8, usictl1: u8, usicnt: u8) -> bool
    ensures { result ≡ clocks_rule usictl0 usictl1 usicnt }
{
    (usictl0 & USIMST == USIMST) & (usictl1 & USIIFG == 0) & (usicnt & USICNTX != 0)
}

// The clock phase after a tick.
pub fn phase_after(clocking: bool, phase: bool, seen: bool, scl: bool) -> bool
    ensures { result ≡ phase_after clocking phase seen scl }
{
    if !clocking {
        return true;
    }
    if phase {
        return !(seen & scl);
    }
    true
}

// A tick that would have to wait for SCL, where a divider of 1 does not wait.
pub fn overruns(usickctl: u8, clocking: bool, phase: bool, seen: bool, scl: bool) -> bool
    ensures { result ≡ overruns_rule usickctl clocking phase seen scl }
{
    (usi_registers::divider(usickctl) == 0) & (clocking & phase & seen & !scl)
}

// SDA is pulled low.
pub fn pulls_sda(fitting: bool, enable: bool, latch: bool) -> bool
    ensures { result ≡ pulls_sda fitting enable latch }
{
    fitting & enable & !latch
}

// SCL is pulled low by the module's own clock.
pub fn drives(usictl0: u8, usictl1: u8, phase: bool) -> bool
    ensures { result ≡ drives_rule usictl0 usictl1 phase }
{
    (usictl0 & USIMST == USIMST) & (usictl1 & USIIFG == 0) & !phase
}

// SCL, pulled low by another, is kept low.
pub fn holds(usictl1: u8, usicnt: u8, stretch: bool) -> bool
    ensures { result ≡ holds_rule usictl1 usicnt stretch }
{
    stretch
        & (usicnt & USISCLREL == 0)
        & ((usictl1 & USIIFG == USIIFG)
            | (usictl1 & USISTTIFG == USISTTIFG)
            | (usicnt & USICNTX == 0))
}
