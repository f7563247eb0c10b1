// Words of a text, parted by 09h, 0Ah, 0Dh and 20h, each with its place.
ghost use Rattle.std.specs.Prelude.{◌≡◌, ◌≤◌, length, drop};
ghost use Rattle.laws.specs.Same.{same};
ghost use Rattle.text.specs.Words.{run_length};
ghost use Rattle.dump_reader.specs.Words.{parting, belongs, bytes_of, word_from, first_byte, begins};

// Bytes that stand together.
#[derive(Clone, Copy)]
pub(crate) enum Run {
    Parting,
    Word,
    Digits,
    Graphic,
}

// A word: the place of its first byte, and that of the byte after its last.
#[derive(Clone, Copy)]
pub(crate) struct Word {
    pub(crate) start: usize,
    pub(crate) end: usize,
}

fn parts(b: u8) -> bool
    ensures { result ≡ parting b }
{
    (b == b'\t') | (b == b'\n') | (b == b'\r') | (b == b' ')
}

// Whether b is one of the bytes of such a run.
fn is_in(run: Run, b: u8) -> bool
    ensures { result ≡ belongs run b }
{
    match run {
        Run::Parting => parts(b),
        Run::Word => !parts(b),
        Run::Digits => (b'0' <= b) & (b <= b'9'),
        Run::Graphic => (0x21 <= b) & (b <= 0x7e),
    }
}

// The length of the run at the start of s.
pub(crate) fn run_length(s: &[u8], run: Run) -> usize
    ensures value { result ≡ run_length (belongs run) s.now }
    ensures upper_bound { result ≤ length s.now }
{
    s.iter().take_while(|b| is_in(run, **b)).count()
}

// The text from a place on.
pub(crate) fn tail(text: &[u8], from: usize) -> &[u8]
    ensures { result.now ≡ drop from text.now }
{
    &text[from.min(text.len())..]
}

// The first word from a place on; it ends with the text where it is cut or where there is none.
pub(crate) fn next_word(text: &[u8], from: usize) -> Word
    ensures { result ≡ word_from text.now from }
{
    let start = from + run_length(tail(text, from), Run::Parting);
    Word {
        start,
        end: start + run_length(tail(text, start), Run::Word),
    }
}

// The bytes of a word.
pub(crate) fn bytes_of(text: &[u8], word: Word) -> &[u8]
    ensures { result.now ≡ bytes_of text.now word }
{
    let end = word.end.min(text.len());
    &text[word.start.min(end)..end]
}

// Whether two words are the same bytes.
pub(crate) fn is_same(a: &[u8], b: &[u8]) -> bool
    ensures { result ≡ same a.now b.now }
{
    a == b
}

// The first byte of a word, 0 where it has none.
pub(crate) fn first_byte(word: &[u8]) -> u8
    ensures { result ≡ first_byte word.now }
{
    word.first().copied().unwrap_or(0)
}

// Whether a word begins with `$`.
pub(crate) fn is_command(word: &[u8]) -> bool
    ensures { result ≡ begins word.now }
{
    first_byte(word) == b'$'
}
