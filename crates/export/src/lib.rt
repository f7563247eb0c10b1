// The libraries for callers in C or Rust: numbers and slices only.
#![tactic(auto)]

ghost use Rattle.std.specs.Prelude.{◌≡◌, ◌^◌, ◌<◌, MatchResult};
ghost use mir.Val.{bool_byte};
ghost use Rattle.usi.specs.Module.{power_up};
ghost use Rattle.usi.specs.Step.{read_byte, read_word, written, written_word, sample as sample_rule, tick as tick_rule};
ghost use Rattle.export.specs.Packed.{unpacked as unpacked_number, registers as registers_of, hidden as hidden_of};
ghost use Rattle.export.specs.Packed.{packed as packed_module, packed_step, packed_written, packed_read, lines};
ghost use Rattle.export.specs.Packed.{line_number, spi_number};

mod arbitration_calls; // arbitration_calls.rt: arbitration
mod catalogue_calls; // catalogue_calls.rt: corrections over the standing catalogue
mod dump_calls; // dump_calls.rt: a trace as a Value Change Dump
mod night_calls; // night_calls.rt: the night
mod order_calls; // order_calls.rt: the least message
mod trace_calls; // trace_calls.rt: decode and encode

use laws::Refusal;
use usi::{Refused, Usi, Written};
use usi_spi::Driven;

// The module that a number stands for.
fn unpacked(number: u64) -> Usi
    ensures { result ≡ unpacked_number number }
{
    Usi {
        usictl0: (number % 256) as u8,
        usictl1: (number / 256 % 256) as u8,
        usickctl: (number / 65536 % 256) as u8,
        usicnt: (number / 16777216 % 256) as u8,
        usisrl: (number / 4294967296 % 256) as u8,
        usisrh: (number / 1099511627776 % 256) as u8,
        latch: number / 281474976710656 % 2 == 1,
        enable: number / 562949953421312 % 2 == 1,
        phase: number / 1125899906842624 % 2 == 1,
        seen: number / 2251799813685248 % 2 == 1,
        scl: number / 4503599627370496 % 2 == 1,
        sda: number / 9007199254740992 % 2 == 1,
        stretch: number / 18014398509481984 % 2 == 1,
    }
}

fn registers(u: Usi) -> u64
    ensures { (result ≡ registers_of u) × (result < 256 ^ 6) }
{
    (u.usictl0 as u64)
        + 256 * (u.usictl1 as u64)
        + 65536 * (u.usickctl as u64)
        + 16777216 * (u.usicnt as u64)
        + 4294967296 * (u.usisrl as u64)
        + 1099511627776 * (u.usisrh as u64)
}

pub(crate) fn digit(b: bool) -> u64
    ensures { (result ≡ bool_byte b) × (result < 2) }
{
    if b { 1 } else { 0 }
}

fn hidden(u: Usi) -> u64
    ensures { (result ≡ hidden_of u) × (result < 128) }
{
    digit(u.latch)
        + 2 * digit(u.enable)
        + 4 * digit(u.phase)
        + 8 * digit(u.seen)
        + 16 * digit(u.scl)
        + 32 * digit(u.sda)
        + 64 * digit(u.stretch)
}

// The number that stands for a module.
pub(crate) fn packed(u: Usi) -> u64
    ensures { (result ≡ packed_module u) × (result < 2 ^ 55) }
{
    registers(u) + 281474976710656 * hidden(u)
}

fn answer(s: Result<Usi, Refused>) -> u64
    ensures { result ≡ packed_step s }
{
    packed(usi::module(s)) + 36028797018963968 * (usi::refusal(s) as u64)
}

fn write_answer(w: Result<Written, Refused>) -> u64
    requires { MatchResult w (λ written. written.cleared < 16) (λ refused. refused.number < 32) }
    ensures { result ≡ packed_written w }
{
    match w {
        Ok(written) => packed(written.usi) + 1152921504606846976 * (written.cleared as u64),
        Err(refused) => packed(refused.usi) + 36028797018963968 * (refused.number as u64),
    }
}

fn read_answer(r: Result<u16, Refusal>) -> u32
    ensures { result ≡ packed_read r }
{
    match r {
        Ok(v) => v as u32,
        Err(refusal) => 65536 * (refusal.number as u32),
    }
}

#[unsafe(no_mangle)]
pub extern "C" fn kan_usi_power_up(low: u8, high: u8) -> u64
    ensures { result ≡ packed_module (power_up low high) }
{
    packed(Usi::power_up(low, high))
}

#[unsafe(no_mangle)]
pub extern "C" fn kan_usi_write(state: u64, address: u16, value: u8) -> u64
    ensures { result ≡ packed_written (written (unpacked_number state) address value) }
{
    write_answer(unpacked(state).write(address, value))
}

#[unsafe(no_mangle)]
pub extern "C" fn kan_usi_write_word(state: u64, address: u16, value: u16) -> u64
    ensures { result ≡ packed_written (written_word (unpacked_number state) address value) }
{
    write_answer(unpacked(state).write_word(address, value))
}

#[unsafe(no_mangle)]
pub extern "C" fn kan_usi_sample(state: u64, level: u8) -> u64
    ensures { result ≡ packed_step (sample_rule (unpacked_number state) level) }
{
    answer(unpacked(state).sample(level))
}

#[unsafe(no_mangle)]
pub extern "C" fn kan_usi_tick(state: u64) -> u64
    ensures { result ≡ packed_step (tick_rule (unpacked_number state)) }
{
    answer(unpacked(state).tick())
}

#[unsafe(no_mangle)]
pub extern "C" fn kan_usi_read(state: u64, address: u16) -> u32
    ensures { result ≡ packed_read (read_byte (unpacked_number state) address) }
{
    read_answer(unpacked(state).read(address))
}

#[unsafe(no_mangle)]
pub extern "C" fn kan_usi_read_word(state: u64, address: u16) -> u32
    ensures { result ≡ packed_read (read_word (unpacked_number state) address) }
{
    read_answer(unpacked(state).read_word(address))
}

#[unsafe(no_mangle)]
pub extern "C" fn kan_usi_lines(state: u64) -> u8
    ensures { result ≡ lines (unpacked_number state) }
{
    let u = unpacked(state);
    (u.pulls_scl() as u8) + 2 * (u.pulls_sda() as u8)
}

fn line_number(line: Driven) -> u8
    ensures { (result ≡ line_number line) × (result < 4) }
{
    match line {
        Driven::Released => 0,
        Driven::Low => 2,
        Driven::High => 3,
    }
}

#[unsafe(no_mangle)]
pub extern "C" fn kan_usi_spi_lines(state: u64) -> u8
    ensures { result ≡ spi_number (unpacked_number state) }
{
    let lines = unpacked(state).spi_lines();
    let sclk = lines.sclk;
    let sdo = lines.sdo;
    line_number(sclk) + 4 * line_number(sdo)
}
