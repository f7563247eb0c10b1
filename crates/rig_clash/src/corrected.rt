// Tonight's corrections laid over a load: the library says which message each board gets.
use crate::kept::{BYTES, MESSAGES_AT, PARTS_AT, ROOM, TONIGHT_AT};
use crate::list::Style;
use crate::load::Load;
use crate::phrase::{put_front, put_numbers};
use crate::state::State;
use crate::{boards, kept, list, slots};
use arbitration_rules::{MAX_LENGTH, MAX_MASTERS};
use catalogue::Located;
use load_text::{gather, gather_lengths};
use rig_lines::console::{PAGE, put_quoted};
use text::{put_byte, put_bytes};

// The boards by number, as the library takes them.
const NUMBERS: [u32; MAX_MASTERS] = [0, 1, 2, 3, 4, 5, 6, 7, 8, 9, 10, 11, 12, 13, 14, 15];

// The library's answer of a board that is in neither list.
const ABSENT: u8 = 42;

fn number_of(board: usize) -> u32 {
    board.min(MAX_MASTERS) as u32
}

// The corrections for the load that is being read are marked as met.
fn meet(kept: &mut [u8; ROOM], count: usize) {
    for correction in 0..count {
        slots::meet(kept, correction);
    }
}

// There is no such board: it costs the load.
fn unknown(page: &mut [u8; PAGE], kept: &[u8], state: State, correction: usize) -> State {
    let form = b"! corrections line #: load *: no board ";
    let place = put_front(page, state.at, kept, form, &[slots::line(kept, correction)]);
    let quoted = put_quoted(page, place, slots::board(kept, correction));
    let end = put_numbers(page, quoted, b" on line #\n", &[state.file.boards_line]);
    state.moved(end).blamed()
}

// The message of a correction, in the row of its board; its parts take the place of those that stand, as the board
// gets no other message.
fn keep_row(kept: &mut [u8; ROOM], board: usize, correction: usize) {
    let mut row = [0u8; MAX_LENGTH];
    let mut parts = [0u8; MAX_LENGTH];
    put_bytes(&mut row, 0, slots::message(kept, correction));
    put_bytes(&mut parts, 0, slots::parts(kept, correction));
    kept::put_row(kept, kept::row_of(TONIGHT_AT, board), &row);
    kept::put_row(kept, kept::row_of(PARTS_AT, board), &parts);
}

// The board of a correction among the first so many.
fn board_of(kept: &[u8], boards: usize, correction: usize) -> Option<usize> {
    boards::find(kept, boards, slots::board(kept, correction))
}

// A correction, where it is for the load that is being read.
fn with_correction(
    page: &mut [u8; PAGE],
    kept: &mut [u8; ROOM],
    state: State,
    correction: usize,
) -> State {
    if !slots::is_current(kept, correction) {
        return state;
    }
    let Some(board) = board_of(kept, state.file.boards, correction) else {
        return unknown(page, kept, state, correction);
    };
    keep_row(kept, board, correction);
    let length = slots::length(kept, correction) as u32;
    state.with_load(state.load.with_correction(board, length))
}

fn with_corrections(
    page: &mut [u8; PAGE],
    kept: &mut [u8; ROOM],
    begun: State,
    count: usize,
) -> State {
    let mut state = begun;
    for correction in 0..count {
        state = with_correction(page, kept, state, correction);
    }
    state
}

// Messages as the library takes them: their bytes, one after another, the boards that send them, and their lengths.
#[derive(Clone, Copy)]
struct List {
    bytes: [u8; BYTES],
    size: usize,
    boards: [u32; MAX_MASTERS],
    lengths: [u32; MAX_MASTERS],
    count: usize,
}

// The messages in the rows of all boards but some.
fn listed(messages: &[u8], rows: [u32; MAX_MASTERS], without: [bool; MAX_MASTERS]) -> List {
    let mut bytes = [0u8; BYTES];
    let mut boards = [0u32; MAX_MASTERS];
    let mut lengths = [0u32; MAX_MASTERS];
    let size = gather(messages, rows, without, &mut bytes);
    let count = gather_lengths(NUMBERS, without, &mut boards);
    gather_lengths(rows, without, &mut lengths);
    List {
        bytes,
        size,
        boards,
        lengths,
        count,
    }
}

impl List {
    fn bytes(&self) -> &[u8] {
        kept::part(&self.bytes, 0, self.size)
    }

    fn boards(&self) -> &[u32] {
        &self.boards[..self.count.min(MAX_MASTERS)]
    }

    fn lengths(&self) -> &[u32] {
        &self.lengths[..self.count.min(MAX_MASTERS)]
    }
}

// What the library says of a board.
fn located(board: usize, tonight: &List, standing: &List) -> Located {
    catalogue::locate(
        number_of(board),
        tonight.bytes(),
        tonight.boards(),
        tonight.lengths(),
        standing.bytes(),
        standing.boards(),
        standing.lengths(),
    )
}

// A message of tonight's, in the row of a board.
fn keep_message(kept: &mut [u8; ROOM], board: usize, tonight: &List, place: Located) {
    let message = kept::part(&tonight.bytes, place.offset, place.length as usize);
    put_bytes(kept, kept::row_of(MESSAGES_AT, board), message);
}

// What it says of a board: a correction takes the place of what stands, and no bytes are silence.
fn with_board(
    kept: &mut [u8; ROOM],
    load: Load,
    board: usize,
    tonight: &List,
    standing: &List,
) -> Load {
    let place = located(board, tonight, standing);
    if (place.number != 0) & (place.number != ABSENT) {
        return load.refused_by(place.number);
    }
    if (place.number == ABSENT) | (place.corrected & (place.length == 0)) {
        return load.without_message(board);
    }
    if !place.corrected {
        return load;
    }
    keep_message(kept, board, tonight, place);
    load.with_message(board, place.length)
}

// What it says of each board.
fn with_boards(
    kept: &mut [u8; ROOM],
    begun: Load,
    boards: usize,
    tonight: &List,
    standing: &List,
) -> Load {
    let mut load = begun;
    for board in 0..boards {
        load = with_board(kept, load, board, tonight, standing);
    }
    load
}

// The corrections of the load, over the messages that stand in it.
fn overlaid(kept: &mut [u8; ROOM], load: Load) -> Load {
    // so much of each message is kept
    let cut = load.lengths.map(|length| length.min(MAX_LENGTH as u32));
    let tonight = listed(
        kept::part(kept, TONIGHT_AT, BYTES),
        load.tonight,
        load.standing,
    );
    let before = listed(kept::part(kept, MESSAGES_AT, BYTES), cut, load.silent);
    with_boards(kept, load, load.boards, &tonight, &before)
}

// Lays the corrections over the load that ends, unless it is in error.
pub(crate) fn laid(page: &mut [u8; PAGE], kept: &mut [u8; ROOM], state: State) -> State {
    if !state.load.named {
        return state;
    }
    meet(kept, state.corrections);
    if state.load.broken {
        return state;
    }
    let next = with_corrections(page, kept, state, state.corrections);
    if next.load.broken | !next.load.corrected {
        return next;
    }
    let over = overlaid(kept, next.load);
    next.with_load(over)
}

// A correction stands first among those of its load.
fn is_first(kept: &[u8], correction: usize) -> bool {
    if correction == 0 {
        return true;
    }
    let before = correction - 1;
    slots::load_line(kept, before) != slots::load_line(kept, correction)
}

// The fault that a load was in none of the files.
fn without_load(page: &mut [u8; PAGE], kept: &[u8], state: State, correction: usize) -> State {
    if slots::is_met(kept, correction) | !is_first(kept, correction) {
        return state;
    }
    let form = b"! corrections line #: load ";
    let place = put_front(
        page,
        state.at,
        kept,
        form,
        &[slots::load_line(kept, correction)],
    );
    let name = put_bytes(page, place, slots::load(kept, correction));
    let end = put_bytes(page, name, b" is in none of the files\n");
    state.moved(end).faulted()
}

// The loads that were in none of the files.
pub(crate) fn unmet(page: &mut [u8; PAGE], kept: &[u8], begun: State, count: usize) -> State {
    let mut state = begun;
    for correction in 0..count {
        state = without_load(page, kept, state, correction);
    }
    state
}

// `corrected 1 thermal, 3 radio`, where there are corrections.
pub(crate) fn put(page: &mut [u8; PAGE], at: usize, kept: &[u8], load: Load) -> usize {
    if !load.corrected {
        return at;
    }
    let from = put_front(page, at, kept, b"  corrected ", &[]);
    let end = list::put_all(page, from, kept, Style::Both, load.standing);
    put_byte(page, end, b'\n')
}
