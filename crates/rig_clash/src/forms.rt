// The words about what is wrong, with their marks.
use rig_lines::lists::line_of;

// What is wrong: with a line or a file, or with an argument; in the order of WORDS.
#[derive(Clone, Copy)]
pub(crate) enum Form {
    First,
    Outside,
    Inside,
    SecondBoards,
    LateBoards,
    Numbered,
    ManyBoards,
    BoardName,
    NamedTwice,
    NoBoards,
    AfterDash,
    Bytes,
    ShortBytes,
    SecondBoard,
    NoBoard,
    UnknownBoard,
    Acks,
    SecondAck,
    Parts,
    NoParts,
    SecondExpect,
    NoName,
    LoadName,
    LongTitle,
    Taken,
    Title,
    ManyLoads,
    Counted,
    NoCount,
    Count,
    AfterEnd,
    LongLine,
    NoText,
    NoEnd,
    NoLoad,
    UnknownLoad,
    WithoutBoard,
    OneWord,
    LongMessage,
    ManyCorrections,
    CorrectionsCounted,
    AfterCorrections,
    InCorrections,
    Slash,
    // about an argument
    NoNumber,
    Number,
    NoCorrections,
    NoTrace,
    NoFile,
    InputTwice,
    Option,
    LongArgument,
    Table,
    Trace,
    NightOption,
    DrawOption,
    NoDrawn,
    AfterLoad,
}

const WORDS: &[u8] = b"\
    expected boards or load first, not $\n\
    expected load or end, not $\n\
    expected load, board, ack, expect or end, not $\n\
    a second boards line, the first is line #\n\
    boards must stand before the first load\n\
    expected load, board or ack, not $\n\
    more than 16 boards\n\
    expected a name of 1 to 16 bytes that begins with a letter and is no byte, not $\n\
    board $ is named twice\n\
    expected boards and 1 to 16 names\n\
    expected nothing after -, not $\n\
    expected bytes of two hexadecimal digits, not $\n\
    expected bytes of one or two hexadecimal digits, not $\n\
    a second line for board @, the first is line #\n\
    expected board NAME and its bytes, or - for none\n\
    no board $ on line #\n\
    expected all, or acknowledges 0 or 1, not $\n\
    a second ack line, the first is line #\n\
    expected expect NAME N/M, not $\n\
    expected expect NAME N/M\n\
    a second expect line, the first is line #\n\
    expected a name of 1 to 32 bytes\n\
    expected a name of 1 to 32 bytes, not $\n\
    the title is longer than 64 bytes\n\
    this name was taken on line #\n\
    expected load NAME, one word, not $: a title needs a boards line\n\
    more than 4096 loads; the rest of the file is not read\n\
    end says #, and the file has &^\n\
    expected end N, the number of loads\n\
    expected end N, the number of loads, not $\n\
    after end (line #); the rest of the file is not read\n\
    longer than 4096 bytes\n\
    a byte that is no text\n\
    the file ends without an end line\n\
    no load in the file\n\
    no load $ in the files\n\
    load @ has no board line\n\
    expected load NAME, one word, not $\n\
    board @ has # bytes, and at most 64 may be sent\n\
    more than 256 corrections\n\
    end says #, and the file has &\n\
    after end (line #)\n\
    expected load, board or end, not $\n\
    / needs a byte before it and one after it\n\
    expected a number after --room\n\
    expected a number after --room, not $\n\
    expected a file after --corrections\n\
    expected a load after --trace\n\
    expected a file, or - for standard input\n\
    - stands twice: standard input is read once\n\
    unknown option $ for clash\n\
    an argument is longer than 4096 bytes\n\
    --table goes with neither --registers nor --wave\n\
    --trace goes with none of --table, --registers and --wave\n\
    unknown option $ for night\n\
    unknown option $ for draw\n\
    expected a load after the file\n\
    unexpected $ after the load";

impl Form {
    pub(crate) fn words(self) -> &'static [u8] {
        line_of(WORDS, self as usize)
    }
}
