// A load: what its lines say, beside the bytes that are kept.
use arbitration_rules::MAX_MASTERS;

#[derive(Clone, Copy)]
pub(crate) struct Load {
    // whether there is one that is being read, and whether it is in error
    pub(crate) open: bool,
    pub(crate) broken: bool,
    // the line that begins it
    pub(crate) line: u64,
    // the boards have names, of which the longest has so many bytes
    pub(crate) named: bool,
    pub(crate) widest: usize,
    // how many boards there are, in the old form as many as there are rows, and how many of them are kept
    pub(crate) rows: u64,
    pub(crate) boards: usize,
    // the line of each board, 0 where it has none: a load goes by value with every line that is read, and options would
    // double these; how many bytes it has; whether it is silent, as is a place without a board
    lines: [u64; MAX_MASTERS],
    pub(crate) lengths: [u32; MAX_MASTERS],
    pub(crate) silent: [bool; MAX_MASTERS],
    // the line with the acknowledges; how many there are, where it does not say `all`
    pub(crate) ack_line: Option<u64>,
    pub(crate) acks: usize,
    pub(crate) all_acked: bool,
    // the line that says what is expected; the board that wins, and its bytes that are carried, of how many
    pub(crate) expect_line: Option<u64>,
    pub(crate) winner: usize,
    pub(crate) carried: u64,
    pub(crate) length: u64,
    // whether it has a correction; which boards have none, and how many bytes the corrections of the others have
    pub(crate) corrected: bool,
    pub(crate) standing: [bool; MAX_MASTERS],
    pub(crate) tonight: [u32; MAX_MASTERS],
    // the number by which the library refuses the corrections, where it does
    pub(crate) number: Option<u8>,
}

pub(crate) fn none() -> Load {
    Load {
        open: false,
        broken: false,
        line: 0,
        named: false,
        widest: 0,
        rows: 0,
        boards: 0,
        lines: [0; MAX_MASTERS],
        lengths: [0; MAX_MASTERS],
        silent: [true; MAX_MASTERS],
        ack_line: None,
        acks: 0,
        all_acked: false,
        expect_line: None,
        winner: 0,
        carried: 0,
        length: 0,
        corrected: false,
        standing: [true; MAX_MASTERS],
        tonight: [0; MAX_MASTERS],
        number: None,
    }
}

// A load that begins on a line: whether its boards have names, how many there are, and the longest name.
pub(crate) fn begun(line: u64, named: bool, boards: usize, widest: usize) -> Load {
    let mut load = none();
    load.open = true;
    load.line = line;
    load.named = named;
    load.boards = boards;
    load.widest = widest;
    load
}

impl Load {
    // The line of a board.
    pub(crate) fn line_of(self, board: usize) -> Option<u64> {
        self.lines.get(board).copied().filter(|line| *line > 0)
    }

    pub(crate) fn length_of(self, board: usize) -> u32 {
        self.lengths.get(board).copied().unwrap_or(0)
    }

    pub(crate) fn is_silent(self, board: usize) -> bool {
        self.silent.get(board).copied().unwrap_or(true)
    }

    // A board's line is read: it is not silent unless the line says so.
    pub(crate) fn with_line(mut self, board: usize, line: u64) -> Load {
        if board < MAX_MASTERS {
            self.lines[board] = line;
        }
        self
    }

    pub(crate) fn with_message(mut self, board: usize, length: u32) -> Load {
        if board < MAX_MASTERS {
            self.lengths[board] = length;
            self.silent[board] = false;
        }
        self
    }

    // A board sends nothing.
    pub(crate) fn without_message(mut self, board: usize) -> Load {
        if board < MAX_MASTERS {
            self.lengths[board] = 0;
            self.silent[board] = true;
        }
        self
    }

    // A board has a correction of so many bytes.
    pub(crate) fn with_correction(mut self, board: usize, length: u32) -> Load {
        if board < MAX_MASTERS {
            self.tonight[board] = length;
            self.standing[board] = false;
            self.corrected = true;
        }
        self
    }

    // A board is expected to win, with so many of its bytes carried.
    pub(crate) fn with_expected(mut self, board: usize, carried: u64, length: u64) -> Load {
        self.winner = board;
        self.carried = carried;
        self.length = length;
        self
    }

    // The library refuses the corrections.
    pub(crate) fn refused_by(mut self, number: u8) -> Load {
        self.number = Some(number);
        self
    }

    // The length of the longest message.
    pub(crate) fn longest(self) -> u32 {
        self.lengths.iter().copied().max().unwrap_or(0)
    }

    // How many acknowledges the library gets: those of the line, or one for each byte of the longest message.
    pub(crate) fn ack_count(self) -> usize {
        if self.ack_line.is_none() | self.all_acked {
            return self.longest() as usize;
        }
        self.acks
    }
}
