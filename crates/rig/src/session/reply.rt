// What a command of a session is answered.
use super::command;
use super::command::Command;
use crate::lines::{end, say, say_numbers};
use crate::trouble::Fault;
use laws::Refusal;
use rig_lines::console::PAGE;
use rig_lines::refusals::put_refusal;
use text::{put_byte, put_bytes};
use usi::{Refused, Usi, Written};
use usi_spi::Driven;
use usi_text::put_module;

const HELP: &[u8] =
    b"ok power [LL HH], read AAA, write AAA VV, readw AAA, writew AAA VVVV, sample L, tick, lines, help";

#[derive(Clone, Copy)]
pub(crate) enum Answer {
    // the line has no command
    Nothing,
    // the command is not understood; `$` stands for its name
    Error(&'static [u8]),
    Refused(u8),
    Help,
    // how the module stands, and after a write the flags that it cleared
    Module,
    Cleared(u8),
    // what was read
    Byte(u16),
    Word(u16),
    // the lines, in words
    Lines(&'static [u8], &'static [u8]),
}

#[derive(Clone, Copy)]
pub(crate) struct Reply {
    // the module after the command
    pub(crate) device: Usi,
    pub(crate) answer: Answer,
}

fn said(device: Usi, answer: Answer) -> Reply {
    Reply { device, answer }
}

// What was read, or the number of the refusal.
fn value(read: Result<u16, Refusal>) -> Result<u16, u8> {
    match read {
        Ok(value) => Ok(value),
        Err(refusal) => Err(refusal.number),
    }
}

fn written(written: Result<Written, Refused>) -> Result<Reply, u8> {
    match written {
        Ok(written) => Ok(said(written.usi, Answer::Cleared(written.cleared))),
        Err(refused) => Err(refused.number),
    }
}

fn stepped(step: Result<Usi, Refused>) -> Result<Reply, u8> {
    match step {
        Ok(device) => Ok(said(device, Answer::Module)),
        Err(refused) => Err(refused.number),
    }
}

fn sclk(line: Driven) -> &'static [u8] {
    match line {
        Driven::Released => b"ok sclk=released",
        Driven::Low => b"ok sclk=low",
        Driven::High => b"ok sclk=high",
    }
}

fn sdo(line: Driven) -> &'static [u8] {
    match line {
        Driven::Released => b" sdo=released",
        Driven::Low => b" sdo=low",
        Driven::High => b" sdo=high",
    }
}

fn scl(low: bool) -> &'static [u8] {
    if low {
        b"ok scl=low"
    } else {
        b"ok scl=released"
    }
}

fn sda(low: bool) -> &'static [u8] {
    if low { b" sda=low" } else { b" sda=released" }
}

// The lines, by the set-up.
fn lines(device: Usi) -> Answer {
    if device.fits_spi() {
        let lines = device.spi_lines();
        return Answer::Lines(sclk(lines.sclk), sdo(lines.sdo));
    }
    Answer::Lines(scl(device.pulls_scl()), sda(device.pulls_sda()))
}

// The reply to a command, or the number by which it is refused.
fn to_command(device: Usi, command: Command) -> Result<Reply, u8> {
    match command {
        Command::Nothing => Ok(said(device, Answer::Nothing)),
        Command::Help => Ok(said(device, Answer::Help)),
        Command::Power(low, high) => Ok(said(Usi::power_up(low, high), Answer::Module)),
        Command::Read(address) => Ok(said(device, Answer::Byte(value(device.read(address))?))),
        Command::ReadWord(address) => {
            Ok(said(device, Answer::Word(value(device.read_word(address))?)))
        }
        Command::Write(address, value) => written(device.write(address, value)),
        Command::WriteWord(address, value) => written(device.write_word(address, value)),
        Command::Sample(level) => stepped(device.sample(level)),
        Command::Tick => stepped(device.tick()),
        Command::Lines => Ok(said(device, lines(device))),
    }
}

// A refusal leaves the module as it was.
fn to_words(device: Usi, words: &[u8]) -> Reply {
    match command::parse(words) {
        Err(form) => said(device, Answer::Error(form)),
        Ok(command) => match to_command(device, command) {
            Ok(reply) => reply,
            Err(number) => said(device, Answer::Refused(number)),
        },
    }
}

// The reply to a line, by its fault and its words.
pub(crate) fn to(device: Usi, fault: Option<Fault>, words: &[u8]) -> Reply {
    match fault {
        Some(Fault::TooLong) => said(device, Answer::Error(b"error longer than 4096 bytes")),
        Some(Fault::NoText) => said(device, Answer::Error(b"error a byte that is no text")),
        _ => to_words(device, words),
    }
}

impl Reply {
    // The line of the module, and what stands at its end.
    fn put_device(self, page: &mut [u8; PAGE]) -> usize {
        let front = put_bytes(page, 0, b"ok ");
        put_module(page, front, self.device)
    }

    // Puts its line.
    pub(crate) fn put(self, page: &mut [u8; PAGE], word: &[u8]) -> usize {
        match self.answer {
            Answer::Nothing => end(page, 0, b"ok"),
            Answer::Error(words) => say(page, 0, words, &[], word),
            Answer::Refused(number) => {
                let next = put_refusal(page, 0, number);
                put_byte(page, next, b'\n')
            }
            Answer::Help => end(page, 0, HELP),
            Answer::Module => {
                let next = self.put_device(page);
                put_byte(page, next, b'\n')
            }
            Answer::Cleared(flags) => {
                let next = self.put_device(page);
                say_numbers(page, next, b" cleared=%", &[flags as u64])
            }
            Answer::Byte(byte) => say_numbers(page, 0, b"ok %", &[byte as u64]),
            Answer::Word(word) => {
                let numbers = [(word / 256) as u64, word as u64];
                say_numbers(page, 0, b"ok %%", &numbers)
            }
            Answer::Lines(clock, data) => {
                let next = put_bytes(page, 0, clock);
                end(page, next, data)
            }
        }
    }
}
