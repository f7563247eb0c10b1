// The lines that answer the commands.
use laws::Refusal;
use text::{put_byte, put_bytes, put_decimal, put_hex_byte, put_hex_word};
use usi::{Refused, Usi, Written};

const STDOUT: i32 = 1;

// Room for the longest line: a module, a refusal and the flags cleared.
const LINE: usize = 128;

pub fn line(bytes: &[u8]) {
    io::write_all(STDOUT, bytes);
    io::write_all(STDOUT, b"\n");
}

fn module(device: Usi) {
    let mut line = [0u8; LINE];
    let past_module = usi_text::put_module(&mut line, 0, device);
    let end = put_byte(&mut line, past_module, b'\n');
    io::write_all(STDOUT, &line[..end]);
}

// A refusal's number.
fn put_refusal(line: &mut [u8], at: usize, number: u8) -> usize {
    let past_label = put_bytes(line, at, b" refused ");
    put_decimal(line, past_label, number as u64)
}

fn refused_module(number: u8, device: Usi) {
    let mut line = [0u8; LINE];
    let past_module = usi_text::put_module(&mut line, 0, device);
    let past_number = put_refusal(&mut line, past_module, number);
    let end = put_byte(&mut line, past_number, b'\n');
    io::write_all(STDOUT, &line[..end]);
}

// Prints the module after a step, and answers it.
pub fn step(step: Result<Usi, Refused>) -> Usi {
    match step {
        Ok(device) => {
            module(device);
            device
        }
        Err(refused) => {
            refused_module(refused.number, refused.usi);
            refused.usi
        }
    }
}

// Prints the end of a line that says what a write did: the flags that it cleared.
fn end_with_flags(line: &mut [u8], at: usize, cleared: u8) {
    let past_label = put_bytes(line, at, b" cleared=");
    let past_flags = put_hex_byte(line, past_label, cleared);
    let end = put_byte(line, past_flags, b'\n');
    io::write_all(STDOUT, &line[..end]);
}

// Prints the module after a write, and the flags that it cleared, of a refused one none; answers the module.
pub fn written(answer: Result<Written, Refused>) -> Usi {
    let mut line = [0u8; LINE];
    match answer {
        Ok(written) => {
            let past_module = usi_text::put_module(&mut line, 0, written.usi);
            end_with_flags(&mut line, past_module, written.cleared);
            written.usi
        }
        Err(refused) => {
            let past_module = usi_text::put_module(&mut line, 0, refused.usi);
            let past_refusal = put_refusal(&mut line, past_module, refused.number);
            end_with_flags(&mut line, past_refusal, 0);
            refused.usi
        }
    }
}

fn refused(number: u8) {
    let mut line = [0u8; LINE];
    let past_label = put_bytes(&mut line, 0, b"refused ");
    let past_number = put_decimal(&mut line, past_label, number as u64);
    let end = put_byte(&mut line, past_number, b'\n');
    io::write_all(STDOUT, &line[..end]);
}

fn byte_value(value: u8) {
    let mut line = [0u8; LINE];
    let past_label = put_bytes(&mut line, 0, b"= ");
    let past_value = put_hex_byte(&mut line, past_label, value);
    let end = put_byte(&mut line, past_value, b'\n');
    io::write_all(STDOUT, &line[..end]);
}

fn word_value(value: u16) {
    let mut line = [0u8; LINE];
    let past_label = put_bytes(&mut line, 0, b"= ");
    let past_value = put_hex_word(&mut line, past_label, value);
    let end = put_byte(&mut line, past_value, b'\n');
    io::write_all(STDOUT, &line[..end]);
}

pub fn byte(read: Result<u16, Refusal>) {
    match read {
        Ok(value) => byte_value((value % 256) as u8),
        Err(refusal) => refused(refusal.number),
    }
}

pub fn word(read: Result<u16, Refusal>) {
    match read {
        Ok(value) => word_value(value),
        Err(refusal) => refused(refusal.number),
    }
}
