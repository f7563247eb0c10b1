// Refusals in words.
ghost use Rattle.text.specs.Output.{Put};
ghost use Rattle.rig_lines.specs.Refusals.{refusal_words, refusal_text, sample_text, stamp_text, byte_text};

use crate::console::{put_form, put_line};

// What a refusal says, by its number: each stands in a line of its own, after the line of 0, which is none. Those of
// 12 to 16 are told with boards, lines and counts where they are given.
fn put_words(page: &mut [u8], at: usize, number: u8) -> usize
    ensures { Put page.old at (refusal_words number) page.new result }
{
    put_line(
        page,
        at,
        b"
the address is outside 078h to 07Dh
a word access needs an even address
the set-up fits neither I2C nor SPI
a level is above 3
stamps and levels differ in number
more than 4096 samples
a stamp is not above the one before it
the reply needs more room than was lent
the event list is not complete
the gap is 0 or above 1000
the last stamp is above 4294967295





a divider of 1 does not wait, and SCL was last seen low
a phase of SCL is too short for the mode
the trace has no sample
a value is x or z
a stamp is not above the one before it
a value of a wire that is not declared
the text ends inside a line, a command or a section
a dump needs just two wires of one bit, and a value for each at its first stamp
a stamp is above 4294967295
the text is longer than 60000 bytes
this is not of the form of a dump with two wires
",
        number as usize,
    )
}

// A refusal without a place.
pub fn put_refusal(page: &mut [u8], at: usize, number: u8) -> usize
    ensures { Put page.old at (refusal_text number) page.new result }
{
    let words = put_form(page, at, b"refused #: ", &[number as u64]);
    put_words(page, words, number)
}

// A refusal with the sample it is about, and the line of the file that the sample stands in.
pub fn put_sample_refusal(page: &mut [u8], at: usize, number: u8, sample: usize, line: u64) -> usize
    ensures { Put page.old at (sample_text number sample line) page.new result }
{
    let numbers = [number as u64, sample as u64, line];
    let words = put_form(page, at, b"refused # sample # (line #): ", &numbers);
    put_words(page, words, number)
}

// A refusal with the sample it is about, and its stamp.
pub fn put_stamp_refusal(page: &mut [u8], at: usize, number: u8, sample: usize, stamp: u32) -> usize
    ensures { Put page.old at (stamp_text number sample stamp) page.new result }
{
    let numbers = [number as u64, sample as u64, stamp as u64];
    let words = put_form(page, at, b"refused # sample # (stamp #): ", &numbers);
    put_words(page, words, number)
}

// A refusal with the byte of a text that it is about, and the line of that byte.
pub fn put_byte_refusal(page: &mut [u8], at: usize, number: u8, byte: usize, line: u64) -> usize
    ensures { Put page.old at (byte_text number byte line) page.new result }
{
    let numbers = [number as u64, byte as u64, line];
    let words = put_form(page, at, b"refused # byte # (line #): ", &numbers);
    put_words(page, words, number)
}
