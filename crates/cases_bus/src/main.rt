// Runs a script of commands on the bus decoder and encoder, and prints their answers and buffers.
#![tactic(auto)]

mod list;
mod script;
mod show;

const STDIN: i32 = 0;

// The longest trace, event list and buffer of a command.
const ROOM: usize = 4200;

// decode ROOM S:L S:L ..
fn decode(arguments: &[u8]) {
    let room = script::size(text::first_word(arguments));
    let mut stamps = [0u32; ROOM];
    let mut levels = [0u8; ROOM];
    let mut events = [u16::MAX; ROOM];
    let samples = text::after_word(arguments);
    script::read_words(samples, &mut stamps, script::stamp_of);
    let n = script::read_words(samples, &mut levels, script::level_of);
    show::decoding(&stamps, &levels, n, &mut events, room);
}

// encode START GAP SROOM LROOM E E ..
fn encode(arguments: &[u8]) {
    let past_start = text::after_word(arguments);
    let past_gap = text::after_word(past_start);
    let past_stamps = text::after_word(past_gap);
    let start = script::number(text::first_word(arguments));
    let gap = script::number(text::first_word(past_start));
    let stamps_room = script::size(text::first_word(past_gap));
    let levels_room = script::size(text::first_word(past_stamps));
    let mut events = [0u16; ROOM];
    let mut stamps = [u32::MAX; ROOM];
    let mut levels = [u8::MAX; ROOM];
    let n = script::read_words(text::after_word(past_stamps), &mut events, script::event);
    show::encoding(
        &events[..n],
        start,
        gap,
        &mut stamps,
        stamps_room,
        &mut levels,
        levels_room,
    );
}

// fill N
fn fill(arguments: &[u8]) {
    let n = script::size(text::first_word(arguments));
    let mut stamps = [0u32; ROOM];
    let levels = [3u8; ROOM];
    let mut events = [u16::MAX; ROOM];
    list::count_up(&mut stamps);
    show::decoding(&stamps, &levels, n, &mut events, 8);
}

// long F N R START GAP
fn long(arguments: &[u8]) {
    let past_frames = text::after_word(arguments);
    let past_bytes = text::after_word(past_frames);
    let past_repeats = text::after_word(past_bytes);
    let frames = script::size(text::first_word(arguments));
    let bytes = script::size(text::first_word(past_frames));
    let repeats = script::size(text::first_word(past_bytes));
    let start = script::number(text::first_word(past_repeats));
    let gap = script::number(text::first_word(text::after_word(past_repeats)));
    let mut events = [0u16; ROOM];
    let mut stamps = [u32::MAX; ROOM];
    let mut levels = [u8::MAX; ROOM];
    let n = list::frames(&mut events, frames, bytes, repeats);
    show::long_encoding(&events[..n], start, gap, &mut stamps, &mut levels);
}

fn run_command(name: &[u8], arguments: &[u8]) {
    match name {
        b"decode" => decode(arguments),
        b"encode" => encode(arguments),
        b"fill" => fill(arguments),
        b"long" => long(arguments),
        _ => show::line(b"unknown command"),
    }
}

// A comment is copied to the output.
fn run_line(line: &[u8]) {
    if line.starts_with(b"#") {
        return show::line(line);
    }
    run_command(text::first_word(line), text::after_word(line));
}

fn run(script: &[u8]) {
    let mut rest = script;
    while rest.len() > 0 {
        run_line(text::first_line(rest));
        rest = text::after_line(rest);
    }
}

fn main() {
    let mut script = io::large_buffer();
    let n = io::read_full(STDIN, &mut script);
    if n == script.len() {
        show::line(b"the script is too long");
        return;
    }
    run(&script[..n]);
}
