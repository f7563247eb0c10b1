// The rules of SPI: edges of SCLK, the register over width and direction, the clock phase and the driven lines, one
// function to a rule on register bytes and hidden bits.
#![tactic(auto)]

ghost use Rattle.std.specs.Prelude.{◌≡◌};
ghost use Rattle.usi_spi.specs.Rules.{idle as idle_rule, leads as leads_rule, trails as trails_rule};
ghost use Rattle.usi_spi.specs.Rules.{captures as captures_rule, changes as changes_rule};
ghost use Rattle.usi_spi.specs.Rules.{wide as wide_rule, lowest_first, register as register_rule};
ghost use Rattle.usi_spi.specs.Rules.{outgoing as outgoing_rule, shifted as shifted_rule, low as low_rule};
ghost use Rattle.usi_spi.specs.Rules.{high as high_rule, follows as follows_rule, phase_after};
ghost use Rattle.usi_spi.specs.Rules.{driven as driven_rule, clock_level, clock_line, data_line};

use usi_registers::{USI16B, USICKPH, USICKPL, USILSB, USIMST};

// A line that the module drives, or not.
#[derive(Clone, Copy)]
pub enum Driven {
    Released,
    Low,
    High,
}

// The level of SCLK at rest.
pub fn idle(usickctl: u8) -> bool
    ensures { result ≡ idle_rule usickctl }
{
    usickctl & USICKPL == USICKPL
}

// SCLK leaves its idle level.
pub fn leads(usickctl: u8, before: bool, sclk: bool) -> bool
    ensures { result ≡ leads_rule usickctl before sclk }
{
    let rest = idle(usickctl);
    (before == rest) & !(sclk == rest)
}

// SCLK comes back to its idle level.
pub fn trails(usickctl: u8, before: bool, sclk: bool) -> bool
    ensures { result ≡ trails_rule usickctl before sclk }
{
    let rest = idle(usickctl);
    !(before == rest) & (sclk == rest)
}

// The edge at which a bit is captured.
// It and `changes` are two rules of their own, named by specs/Rules; they differ in which edge is which.
pub fn captures(usictl1: u8, usickctl: u8, before: bool, sclk: bool) -> bool
    ensures { result ≡ captures_rule usictl1 usickctl before sclk }
{
    if usictl1 & USICKPH == USICKPH {
        return leads(usickctl, before, sclk);
    }
    trails(usickctl, before, sclk)
}

// The edge at which the output changes.
pub fn changes(usictl1: u8, usickctl: u8, before: bool, sclk: bool) -> bool
    ensures { result ≡ changes_rule usictl1 usickctl before sclk }
{
    if usictl1 & USICKPH == USICKPH {
        return trails(usickctl, before, sclk);
    }
    leads(usickctl, before, sclk)
}

// The register is 16 bits wide.
pub fn wide(usicnt: u8) -> bool
    ensures { result ≡ wide_rule usicnt }
{
    usicnt & USI16B == USI16B
}

// The lowest bit leaves first.
pub fn lowest_first(usictl0: u8) -> bool
    ensures { result ≡ lowest_first usictl0 }
{
    usictl0 & USILSB == USILSB
}

// The register's value.
pub fn register(usicnt: u8, usisrl: u8, usisrh: u8) -> u16
    ensures { result ≡ register_rule usicnt usisrl usisrh }
{
    if wide(usicnt) {
        return (usisrl as u16) + 256 * (usisrh as u16);
    }
    usisrl as u16
}

// The bit that leaves next.
pub fn outgoing(usictl0: u8, usicnt: u8, value: u16) -> bool
    ensures { result ≡ outgoing_rule usictl0 usicnt value }
{
    shift::outgoing(value, wide(usicnt), lowest_first(usictl0))
}

// The register after one shift, with SDI entering.
pub fn shifted(usictl0: u8, usicnt: u8, sdi: bool, value: u16) -> u16
    ensures { result ≡ shifted_rule usictl0 usicnt sdi value }
{
    shift::shifted(value, wide(usicnt), lowest_first(usictl0), sdi)
}

// USISRL of a register's value.
pub fn low(value: u16) -> u8
    ensures { result ≡ low_rule value }
{
    (value % 256) as u8
}

// USISRH of a register's value; a register of 8 bits leaves it.
pub fn high(usicnt: u8, usisrh: u8, value: u16) -> u8
    ensures { result ≡ high_rule usicnt usisrh value }
{
    if wide(usicnt) {
        return (value / 256) as u8;
    }
    usisrh
}

// Whether the latch follows after a step.
pub fn follows(usictl0: u8, usictl1: u8, usickctl: u8, usicnt: u8, seen: bool, sclk: bool) -> bool
    ensures { result ≡ follows_rule usictl0 usictl1 usickctl usicnt seen sclk }
{
    let rest = idle(usickctl);
    usi_registers::transparent(usictl0)
        | ((usictl1 & USICKPH == USICKPH) & usi_registers::counting(usicnt) & seen & (sclk == rest))
}

// The clock phase after a tick.
pub fn phase_after(clocking: bool, phase: bool) -> bool
    ensures { result ≡ phase_after clocking phase }
{
    if clocking {
        return !phase;
    }
    true
}

fn at_level(level: bool) -> Driven
    ensures { result ≡ driven_rule level }
{
    if level {
        return Driven::High;
    }
    Driven::Low
}

// The level of SCLK in a clock phase.
pub fn clock_level(usickctl: u8, phase: bool) -> bool
    ensures { result ≡ clock_level usickctl phase }
{
    idle(usickctl) == phase
}

// What is driven on SCLK.
pub fn clock_line(usictl0: u8, usickctl: u8, phase: bool) -> Driven
    ensures { result ≡ clock_line usictl0 usickctl phase }
{
    if usictl0 & USIMST == USIMST {
        return at_level(clock_level(usickctl, phase));
    }
    Driven::Released
}

// What is driven on SDO.
pub fn data_line(enable: bool, latch: bool) -> Driven
    ensures { result ≡ data_line enable latch }
{
    if enable {
        return at_level(latch);
    }
    Driven::Released
}
