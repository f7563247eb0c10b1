// A USI module as text: its registers, its hidden state and the lines that it pulls low or, in SPI, drives.
#![tactic(auto)]

ghost use Rattle.std.specs.Prelude.{◌≡◌};
ghost use Rattle.text.specs.Output.{Put};
ghost use Rattle.usi_text.specs.Module.{flag_byte, lines_byte, driven_byte, spaced_text, flag_text};
ghost use Rattle.usi_text.specs.Module.{registers_text, output_text, input_text, pulls_text, driven_text};
ghost use Rattle.usi_text.specs.Module.{drives_text, lines_text, module_text};

use text::{put_byte, put_bytes, put_hex_byte};
use usi::Usi;
use usi_spi::Driven;

fn put_spaced(out: &mut [u8], at: usize, register: u8) -> usize
    ensures { Put out.old at (spaced_text register) out.new result }
{
    let next = put_byte(out, at, b' ');
    put_hex_byte(out, next, register)
}

// The six registers in the order of their addresses.
fn put_registers(out: &mut [u8], at: usize, device: Usi) -> usize
    ensures { Put out.old at (registers_text device) out.new result }
{
    let past_ctl0 = put_hex_byte(out, at, device.usictl0);
    let past_ctl1 = put_spaced(out, past_ctl0, device.usictl1);
    let past_ckctl = put_spaced(out, past_ctl1, device.usickctl);
    let past_cnt = put_spaced(out, past_ckctl, device.usicnt);
    let past_srl = put_spaced(out, past_cnt, device.usisrl);
    put_spaced(out, past_srl, device.usisrh)
}

fn flag_byte(on: bool) -> u8
    ensures { result ≡ flag_byte on }
{
    if on { b'1' } else { b'0' }
}

fn put_flag(out: &mut [u8], at: usize, label: &[u8], on: bool) -> usize
    ensures { Put out.old at (flag_text label.now on) out.new result }
{
    let next = put_bytes(out, at, label);
    put_byte(out, next, flag_byte(on))
}

// The hidden state of the outputs: latch, latched enable and clock phase.
fn put_output(out: &mut [u8], at: usize, device: Usi) -> usize
    ensures { Put out.old at (output_text device) out.new result }
{
    let past_latch = put_flag(out, at, b" latch=", device.latch);
    let past_enable = put_flag(out, past_latch, b" enable=", device.enable);
    put_flag(out, past_enable, b" phase=", device.phase)
}

// The hidden state of the inputs: the levels last seen, and whether SCL is stretched.
fn put_input(out: &mut [u8], at: usize, device: Usi) -> usize
    ensures { Put out.old at (input_text device) out.new result }
{
    let past_seen = put_flag(out, at, b" seen=", device.seen);
    let past_scl = put_flag(out, past_seen, b" scl=", device.scl);
    let past_sda = put_flag(out, past_scl, b" sda=", device.sda);
    put_flag(out, past_sda, b" stretch=", device.stretch)
}

// The digit for the lines pulled low: 1 for SCL, and 2 for SDA.
fn lines_byte(scl: bool, sda: bool) -> u8
    ensures { result ≡ lines_byte scl sda }
{
    if scl {
        if sda { b'3' } else { b'1' }
    } else {
        if sda { b'2' } else { b'0' }
    }
}

// The lines pulled low.
fn put_pulls(out: &mut [u8], at: usize, device: Usi) -> usize
    ensures { Put out.old at (pulls_text device) out.new result }
{
    let past_label = put_bytes(out, at, b" pull=");
    put_byte(
        out,
        past_label,
        lines_byte(device.pulls_scl(), device.pulls_sda()),
    )
}

// The level of a line that is driven; of one that is released a dash.
fn driven_byte(line: Driven) -> u8
    ensures { result ≡ driven_byte line }
{
    match line {
        Driven::Released => b'-',
        Driven::Low => b'0',
        Driven::High => b'1',
    }
}

fn put_driven(out: &mut [u8], at: usize, label: &[u8], line: Driven) -> usize
    ensures { Put out.old at (driven_text label.now line) out.new result }
{
    let next = put_bytes(out, at, label);
    put_byte(out, next, driven_byte(line))
}

// The lines driven in SPI.
fn put_drives(out: &mut [u8], at: usize, device: Usi) -> usize
    ensures { Put out.old at (drives_text device) out.new result }
{
    let lines = device.spi_lines();
    let sclk = lines.sclk;
    let sdo = lines.sdo;
    let past_sclk = put_driven(out, at, b" sclk=", sclk);
    put_driven(out, past_sclk, b" sdo=", sdo)
}

// The lines, by the set-up.
fn put_lines(out: &mut [u8], at: usize, device: Usi) -> usize
    ensures { Put out.old at (lines_text device) out.new result }
{
    if device.fits_spi() {
        return put_drives(out, at, device);
    }
    put_pulls(out, at, device)
}

// The whole module: registers, hidden state, lines.
pub fn put_module(out: &mut [u8], at: usize, device: Usi) -> usize
    ensures { Put out.old at (module_text device) out.new result }
{
    let past_registers = put_registers(out, at, device);
    let past_output = put_output(out, past_registers, device);
    let past_input = put_input(out, past_output, device);
    put_lines(out, past_input, device)
}
