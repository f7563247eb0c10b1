// Lines of a text and words of a line: each function answers a part of the slice that it is lent.
ghost use Rattle.std.specs.Prelude.{◌≡◌, ◌≤◌, length, take_while};
ghost use Rattle.text.specs.Words.{blank, belongs};
ghost use Rattle.text.specs.Words.{first_line, after_line, from_word, first_word, after_word};

const SPACE: u8 = 0x20;

const TAB: u8 = 0x09;

const RETURN: u8 = 0x0d;

const NEWLINE: u8 = 0x0a;

// Bytes that stand together: an enum, since the definition `belongs` goes by it.
#[derive(Clone, Copy)]
enum Run {
    Line,
    Blanks,
    Word,
}

fn is_blank(b: u8) -> bool
    ensures { result ≡ blank b }
{
    (b == SPACE) | (b == TAB) | (b == RETURN)
}

// Whether b is one of the bytes of such a run.
fn is_in(run: Run, b: u8) -> bool
    ensures { result ≡ belongs run b }
{
    match run {
        Run::Line => b != NEWLINE,
        Run::Blanks => is_blank(b),
        Run::Word => !is_blank(b),
    }
}

// The length of the run at the start of s.
fn run_length(s: &[u8], run: Run) -> usize
    ensures value { result ≡ length (take_while (belongs run) s.now) }
    ensures upper_bound { result ≤ length s.now }
{
    s.iter().take_while(|b| is_in(run, **b)).count()
}

// The text up to its first newline, which is not part of it.
pub fn first_line(text: &[u8]) -> &[u8]
    ensures { result.now ≡ first_line text.now }
{
    let length = run_length(text, Run::Line);
    &text[..length]
}

// The text past its first newline, empty where there is none.
pub fn after_line(text: &[u8]) -> &[u8]
    ensures { result.now ≡ after_line text.now }
{
    let end = run_length(text, Run::Line);
    if end < text.len() {
        let next = end + 1;
        return &text[next..];
    }
    &text[end..]
}

// A line from its first byte that is no blank.
fn from_word(line: &[u8]) -> &[u8]
    ensures { result.now ≡ from_word line.now }
{
    let start = run_length(line, Run::Blanks);
    &line[start..]
}

// The first word of a line, empty where the line has none.
pub fn first_word(line: &[u8]) -> &[u8]
    ensures { result.now ≡ first_word line.now }
{
    let word = from_word(line);
    let length = run_length(word, Run::Word);
    &word[..length]
}

// What follows the first word of a line.
pub fn after_word(line: &[u8]) -> &[u8]
    ensures { result.now ≡ after_word line.now }
{
    let word = from_word(line);
    let end = run_length(word, Run::Word);
    &word[end..]
}
