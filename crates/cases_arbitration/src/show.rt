// The lines that answer a command.
use arbitration::{Arbitrated, Rehearsed};
use arbitration_rules::{MAX_MASTERS, Seat};
use usi::Usi;

const STDOUT: i32 = 1;

// Room for a module.
const MODULE: usize = 96;

// The shift bytes of the table's modules before a run.
const HELD: u8 = 0xee;

pub fn line(bytes: &[u8]) {
    io::write_all(STDOUT, bytes);
    io::write_all(STDOUT, b"\n");
}

// A label and a number.
fn labelled(label: &[u8], number: u64) {
    io::write_all(STDOUT, label);
    io::print_decimal(STDOUT, number);
}

fn module(device: Usi) {
    let mut text = [0u8; MODULE];
    let end = usi_text::put_module(&mut text, 0, device);
    io::write_all(STDOUT, &text[0..end]);
}

fn master(i: usize, device: Usi, seat: Seat) {
    labelled(b"  ", i as u64);
    io::write_all(STDOUT, b": ");
    module(device);
    labelled(b" at ", seat.position as u64);
    io::write_all(STDOUT, b" cleared=");
    hex_byte(seat.cleared);
    line(b"");
}

// The masters that have a message.
fn masters(modules: [Usi; MAX_MASTERS], seats: [Seat; MAX_MASTERS], count: usize) {
    for i in 0..count.min(MAX_MASTERS) {
        master(i, modules[i], seats[i]);
    }
}

// The masters still contending, bit i for master i.
fn mask(seats: [Seat; MAX_MASTERS]) -> u64 {
    let mut mask: u64 = 0;
    for (i, seat) in seats.iter().enumerate() {
        mask |= (seat.contending as u64) << i;
    }
    mask
}

fn reply(answer: Arbitrated) {
    let refusal = answer.refusal;
    let seats = answer.seats;
    labelled(b"refused ", refusal.number as u64);
    labelled(b" place ", refusal.place as u64);
    labelled(b" k ", answer.count as u64);
    labelled(b" in ", mask(seats));
    line(b"");
}

// The reply, and after a run the masters.
fn replied(done: Rehearsed, count: usize) {
    let answer = done.reply;
    let refusal = answer.refusal;
    reply(answer);
    if refusal.number == 0 {
        let modules = done.modules;
        let seats = answer.seats;
        masters(modules, seats, count);
    }
}

fn hex_byte(b: u8) {
    let mut text = [0u8; 2];
    text::put_hex_byte(&mut text, 0, b);
    io::write_all(STDOUT, &text);
}

// A level as a digit, and a point for a byte that is none.
fn level(b: u8) {
    let text = [if b <= 3 { b'0' + b } else { b'.' }];
    io::write_all(STDOUT, &text);
}

fn buffer<F: Fn(u8)>(label: &[u8], entries: &[u8], show: F)
    requires { F.IsAlwaysCallable show }
{
    io::write_all(STDOUT, label);
    for entry in entries {
        show(*entry);
    }
    line(b"");
}

// Runs one arbitration, and prints the reply and both buffers.
pub fn arbitration(
    bytes: &[u8],
    parts: &[u32],
    counts: &[u32],
    acks: &[u8],
    carried: &mut [u8],
    levels: &mut [u8],
) {
    let held = [Usi::power_up(HELD, HELD); MAX_MASTERS];
    let done = arbitration::rehearse(held, bytes, parts, counts, acks, carried, levels);
    replied(done, counts.len());
    buffer(b"  carried ", carried, hex_byte);
    buffer(b"  levels ", levels, level);
}
