// The lines of one sample, put into a scratch line that holds the longest.
ghost use Rattle.std.specs.Prelude.{◌≡◌, ◌≤◌, length};
ghost use Rattle.text.specs.Output.{Put};
ghost use Rattle.dump.specs.Text.{stamp_line, value_line, change_line, sample_text, unlike_first};

use text::{put_byte, put_decimal};

// The most bytes that one sample takes: `#`, ten digits, a line end, and two lines of three.
pub(crate) const LONGEST_SAMPLE: usize = 18;

const LINE_END: u8 = b'\n';

// The identifiers of the two wires.
const SCL: u8 = b'!';

const SDA: u8 = b'"';

fn put_stamp(out: &mut [u8], at: usize, stamp: u32) -> usize
    ensures { Put out.old at (stamp_line stamp) out.new result }
{
    let past_mark = put_byte(out, at, b'#');
    let past_stamp = put_decimal(out, past_mark, stamp as u64);
    put_byte(out, past_stamp, LINE_END)
}

fn put_value(out: &mut [u8], at: usize, high: bool, wire: u8) -> usize
    ensures { Put out.old at (value_line high wire) out.new result }
{
    let past_value = put_byte(out, at, b'0' + (high as u8));
    let past_wire = put_byte(out, past_value, wire);
    put_byte(out, past_wire, LINE_END)
}

// A wire's line, where its level is another than before.
fn put_change(out: &mut [u8], at: usize, was: bool, high: bool, wire: u8) -> usize
    ensures { Put out.old at (change_line was high wire) out.new result }
{
    if high == was {
        return at.min(out.len());
    }
    put_value(out, at, high, wire)
}

// What a sample adds to the text after one of level `last`; answers how many bytes.
pub(crate) fn put_sample(out: &mut [u8], last: u8, stamp: u32, level: u8) -> usize
    ensures put { Put out.old 0 (sample_text last stamp level) out.new result }
    ensures level_len_bound { length (sample_text last stamp level) ≤ 18 }
{
    let scl = levels::scl(level);
    let sda = levels::sda(level);
    let scl_was = levels::scl(last);
    let sda_was = levels::sda(last);
    if (scl == scl_was) & (sda == sda_was) {
        return 0;
    }
    let past_stamp = put_stamp(out, 0, stamp);
    let past_scl = put_change(out, past_stamp, scl_was, scl, SCL);
    put_change(out, past_scl, sda_was, sda, SDA)
}

// A level from which the first sample changes both wires.
pub(crate) fn before_first(levels: &[u8]) -> u8
    ensures { result ≡ unlike_first levels.now }
{
    if levels.len() == 0 {
        return 0;
    }
    let level = levels[0];
    levels::level_of(!levels::scl(level), !levels::sda(level))
}
