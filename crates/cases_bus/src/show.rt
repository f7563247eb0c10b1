// The lines that answer the commands.
use decode::Decoded;
use laws::Refusal;

const STDOUT: i32 = 1;

// What stands for the refusal where there is none, and for what was read where there is one.
const NOT_REFUSED: Refusal = Refusal {
    number: 0,
    place: 0,
};

const NOT_READ: Decoded = Decoded {
    count: 0,
    framed: false,
    pending: 0,
    value: 0,
};

pub fn line(bytes: &[u8]) {
    io::write_all(STDOUT, bytes);
    io::write_all(STDOUT, b"\n");
}

// A label and a number.
fn labelled(label: &[u8], number: u64) {
    io::write_all(STDOUT, label);
    io::print_decimal(STDOUT, number);
}

fn decoded_line(refusal: Refusal, read: Decoded) {
    labelled(b"refused ", refusal.number as u64);
    labelled(b" place ", refusal.place as u64);
    labelled(b" count ", read.count as u64);
    labelled(b" open ", read.framed as u64);
    labelled(b" pending ", read.pending as u64);
    labelled(b" value ", read.value as u64);
    io::write_all(STDOUT, b" |");
}

fn decoded(answer: Result<Decoded, Refusal>) {
    match answer {
        Ok(read) => decoded_line(NOT_REFUSED, read),
        Err(refusal) => decoded_line(refusal, NOT_READ),
    }
}

fn encoded_line(refusal: u8, count: usize) {
    labelled(b"refused ", refusal as u64);
    labelled(b" count ", count as u64);
}

fn encoded(answer: Result<usize, Refusal>) {
    match answer {
        Ok(count) => encoded_line(0, count),
        Err(refusal) => encoded_line(refusal.number, 0),
    }
}

fn event(number: u16) {
    labelled(b" ", number as u64);
}

fn sample(stamp: u32, level: u8) {
    labelled(b" ", stamp as u64);
    labelled(b":", level as u64);
}

fn all_events(events: &[u16]) {
    for number in events {
        event(*number);
    }
}

// The samples for which both buffers have room.
fn all_samples(stamps: &[u32], levels: &[u8]) {
    for (stamp, level) in stamps.iter().zip(levels) {
        sample(*stamp, *level);
    }
}

// The sum of two buffers of one length, modulo 2^32.
fn sum(stamps: &[u32], levels: &[u8]) -> u32 {
    let samples = stamps.iter().zip(levels);
    samples.fold(0, |total: u32, (stamp, level)| {
        total.wrapping_add(*stamp).wrapping_add(u32::from(*level))
    })
}

// Decodes a trace into a buffer, and prints the answer and the buffer.
fn decode_into(stamps: &[u32], levels: &[u8], events: &mut [u16]) {
    decoded(decode::decode(stamps, levels, events));
    all_events(events);
    line(b"");
}

// The same with the first n samples, and a buffer of a given length.
pub fn decoding(stamps: &[u32], levels: &[u8], n: usize, events: &mut [u16], room: usize) {
    if n > stamps.len() || n > levels.len() || room > events.len() {
        return line(b"no room");
    }
    decode_into(&stamps[..n], &levels[..n], &mut events[..room]);
}

// Encodes an event list into two buffers, and prints the answer and the buffers.
fn encode_into(events: &[u16], start: u32, gap: u32, stamps: &mut [u32], levels: &mut [u8]) {
    encoded(encode::encode(events, start, gap, stamps, levels));
    io::write_all(STDOUT, b" |");
    all_samples(stamps, levels);
    line(b"");
}

// The same with buffers of given lengths.
pub fn encoding(
    events: &[u16],
    start: u32,
    gap: u32,
    stamps: &mut [u32],
    stamps_room: usize,
    levels: &mut [u8],
    levels_room: usize,
) {
    if stamps_room > stamps.len() || levels_room > levels.len() {
        return line(b"no room");
    }
    encode_into(
        events,
        start,
        gap,
        &mut stamps[..stamps_room],
        &mut levels[..levels_room],
    );
}

// Encodes an event list into two buffers, and prints the answer and the buffers' sum.
pub fn long_encoding(events: &[u16], start: u32, gap: u32, stamps: &mut [u32], levels: &mut [u8]) {
    encoded(encode::encode(events, start, gap, stamps, levels));
    labelled(b" sum ", sum(stamps, levels) as u64);
    line(b"");
}
