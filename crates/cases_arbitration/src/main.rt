// Runs a script of arbitrations, and prints the reply and both buffers of each.
#![tactic(auto)]

mod script;
mod show;

use check::same;
use script::{read_bytes, read_digits, read_messages, read_numbers, within};
use text::{after_word, first_word};

const STDIN: i32 = 0;

// Room for the digits, bytes, parts and messages of a line, and for both buffers.
const ROOM: usize = 2048;

// What both buffers hold before a run.
const UNTOUCHED: u8 = 0xee;

// Runs one arbitration in buffers of the lengths that two words say.
fn run_in(
    bytes: &[u8],
    parts: &[u32],
    counts: &[u32],
    acks: &[u8],
    carried_room: &[u8],
    levels_room: &[u8],
) {
    let mut carried = [UNTOUCHED; ROOM];
    let mut levels = [UNTOUCHED; ROOM];
    let carried_end = within(carried_room, ROOM);
    let levels_end = within(levels_room, ROOM);
    show::arbitration(
        bytes,
        parts,
        counts,
        acks,
        &mut carried[0..carried_end],
        &mut levels[0..levels_end],
    );
}

// The same with a header CROOM LROOM ACKS.
fn run_under(header: &[u8], bytes: &[u8], parts: &[u32], counts: &[u32]) {
    let past_carried = after_word(header);
    let mut acks = [0u8; ROOM];
    let n = read_digits(first_word(after_word(past_carried)), &mut acks);
    run_in(
        bytes,
        parts,
        counts,
        &acks[0..n],
        first_word(header),
        first_word(past_carried),
    );
}

// The same with messages in hexadecimal, `/` between two parts.
fn run_messages(header: &[u8], messages: &[u8]) {
    let mut bytes = [0u8; ROOM];
    let mut parts = [0u32; ROOM];
    let mut counts = [0u32; ROOM];
    let end = read_bytes(messages, &mut bytes);
    let read = read_messages(messages, &mut parts, &mut counts);
    let parts_end = read.parts;
    let counts_end = read.counts;
    run_under(
        header,
        &bytes[0..end],
        &parts[0..parts_end],
        &counts[0..counts_end],
    );
}

// The same with all bytes in hexadecimal and the lengths of messages of one part.
fn run_lengths(header: &[u8], messages: &[u8], numbers: &[u8]) {
    let mut bytes = [0u8; ROOM];
    let mut lengths = [0u32; ROOM];
    let counts = [1u32; ROOM];
    let end = read_bytes(messages, &mut bytes);
    let n = read_numbers(numbers, &mut lengths);
    run_under(header, &bytes[0..end], &lengths[0..n], &counts[0..n]);
}

// The same with counts and then the lengths of the parts in one list; a word says how many counts.
fn run_counted(header: &[u8], bytes: &[u8], list: &[u32], word: &[u8]) {
    let n = within(word, list.len());
    run_under(header, bytes, &list[n..], &list[0..n]);
}

// The same with all bytes in hexadecimal, how many counts there are, the counts and the lengths of the parts.
fn run_parts(header: &[u8], messages: &[u8], numbers: &[u8]) {
    let mut bytes = [0u8; ROOM];
    let mut list = [0u32; ROOM];
    let end = read_bytes(messages, &mut bytes);
    let n = read_numbers(after_word(numbers), &mut list);
    run_counted(header, &bytes[0..end], &list[0..n], first_word(numbers));
}

// run CROOM LROOM ACKS HEX HEX .., lens CROOM LROOM ACKS HEX N N .., and parts CROOM LROOM ACKS HEX N C .. P ..
fn run_line(line: &[u8]) {
    let name = first_word(line);
    let header = after_word(line);
    let messages = after_word(after_word(after_word(header)));
    if same(name, b"run") {
        run_messages(header, messages);
        return;
    }
    if same(name, b"lens") {
        run_lengths(header, first_word(messages), after_word(messages));
        return;
    }
    if same(name, b"parts") {
        run_parts(header, first_word(messages), after_word(messages));
        return;
    }
    // a comment is copied to the output
    show::line(line);
}

fn run(script: &[u8]) {
    let mut rest = script;
    while rest.len() > 0 {
        run_line(text::first_line(rest));
        let next = text::after_line(rest);
        rest = next;
    }
}

fn main() {
    let mut script = io::large_buffer();
    let n = io::read_full(STDIN, &mut script);
    if n == script.len() {
        show::line(b"the script is too long");
        return;
    }
    run(&script[..n]);
}
