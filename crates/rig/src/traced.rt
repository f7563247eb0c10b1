// rig decode, rig dump and rig sort: what is done with the samples of a trace.
use crate::arguments::{Arguments, Task};
use crate::decoding::captured::TEXT;
use crate::decoding::samples::{CAPTURE, Reading};
use crate::decoding::{captured, samples};
use crate::{decoding, dumping, sorting};
use rig_lines::console::PAGE;
use rig_lines::files::Reader;
use rig_lines::input::Source;
use rig_lines::{input, parts};
use std::rt::Env;

// The part of it that was read.
fn answer(
    page: &mut [u8; PAGE],
    given: Arguments,
    reading: Reading,
    stamps: &[u32],
    levels: &[u8],
    lines: &[u64],
) -> usize {
    let stamp_count = parts::lent(reading.stamps, stamps);
    let level_count = parts::lent(reading.levels, levels);
    let read_stamps = &stamps[..stamp_count];
    let read_levels = &levels[..level_count];
    match given.task {
        Task::Decode => decoding::answer(
            page,
            0,
            given,
            reading.unpaired,
            read_stamps,
            read_levels,
            lines,
        ),
        Task::Dump => dumping::answer(page, reading.unpaired, read_stamps, read_levels, lines),
        _ => sorting::answer(page, reading.unpaired, read_stamps, read_levels, lines),
    }
}

// The same, where every line was understood.
fn answer_read<E: Env>(
    env: &E,
    page: &mut [u8; PAGE],
    given: Arguments,
    reading: Reading,
    line: &[u8; input::ROOM],
    stamps: &[u32; CAPTURE],
    levels: &[u8; CAPTURE],
    lines: &[u64; CAPTURE],
) -> usize {
    match reading.progress.wrong {
        Some(wrong) => reading.complain(env, page, line, wrong),
        None => answer(page, given, reading, stamps, levels, lines),
    }
}

// Reads the lines of a trace.
fn run_lines<E: Env>(
    env: &E,
    reader: &mut Reader,
    page: &mut [u8; PAGE],
    given: Arguments,
    source: Source,
    piece: &mut [u8; TEXT],
) -> usize {
    let mut line = [0u8; input::ROOM];
    let mut stamps = [0u32; CAPTURE];
    let mut levels = [0u8; CAPTURE];
    let mut lines = [0u64; CAPTURE];
    let reading = samples::read_all(
        reader,
        Reading::new(source, given.thin),
        piece,
        &mut line,
        &mut stamps,
        &mut levels,
        &mut lines,
    );
    answer_read(env, page, given, reading, &line, &stamps, &levels, &lines)
}

// A dump, which rig decode alone reads, is known by how its text begins, all of which is read first.
pub(crate) fn run<E: Env>(
    env: &E,
    reader: &mut Reader,
    page: &mut [u8; PAGE],
    given: Arguments,
    source: Source,
) -> usize {
    let mut piece = [0u8; TEXT];
    let ready = input::fill(reader, &mut piece, source);
    let n = parts::lent(ready.end, &piece);
    if matches!(given.task, Task::Decode) & captured::begins(&piece[..n]) {
        return captured::run(env, page, given, ready, &piece[..n]);
    }
    run_lines(env, reader, page, given, ready, &mut piece)
}
