// A trace drawn as a Value Change Dump: the whole text, or a piece of it from any byte on.
#![tactic(auto)]

ghost use Rattle.std.specs.Prelude.{◌≡◌, length, drop};
ghost use Rattle.text.specs.Output.{Put};
ghost use Rattle.dump.specs.Text.{dump_text};
ghost use Rattle.dump.specs.Dumped.{dumped, text_after};

use laws::{Refusal, refused};

mod lines; // lines.rt: the lines of one sample
mod writer; // writer.rt: the text from a byte on, put into a slice

// The text from byte `from` on, as much of it as `out` has room for; answers how many bytes those are. The rest of
// `out` stays.
pub fn piece(stamps: &[u32], levels: &[u8], from: usize, out: &mut [u8]) -> usize
    ensures { Put out.old 0
        (drop from (dump_text stamps.now levels.now)) out.new result }
{
    let point = writer::write(stamps, levels, from, out);
    point.at
}

// The whole text, and how many bytes it has. 19 comes after 5, 6, 4 and 7 and before 8; a refusal leaves the slice as it
// was.
pub fn dump(stamps: &[u32], levels: &[u8], out: &mut [u8]) -> Result<usize, Refusal>
    ensures answer { result ≡ dumped
        stamps.now levels.now (length out.old) }
    ensures buffer { out.new ≡ text_after result
        stamps.now levels.now out.old }
{
    trace::check(stamps, levels)?;
    if levels.len() == 0 {
        return refused(19, 0);
    }
    if out.len() < writer::text_length(stamps, levels) {
        return refused(8, 0);
    }
    Ok(piece(stamps, levels, 0, out))
}
