// The text of a trace from a byte on, put into a lent slice chunk by chunk.
ghost use Rattle.std.specs.Prelude.{◌≡◌, ◌+◌, ◌*◌, ◌≤◌, length};
ghost use Rattle.dump.specs.Text.{header, dump_text};
ghost use Rattle.dump.specs.Window.{PutPast, begun};
ghost use Rattle.trace.specs.Limits.{max_samples};

use crate::lines::{LONGEST_SAMPLE, before_first, put_sample};
use text::put_bytes;

// The longest text: that of 4,096 samples.
const LONGEST_TEXT: usize = 73855;

// Where the writer is: how many of the bytes to come are left out, and where in the slice the first other one goes.
#[derive(Clone, Copy)]
pub(crate) struct Point {
    pub(crate) skip: usize,
    pub(crate) at: usize,
}

// A chunk of the text.
fn put(out: &mut [u8], point: Point, chunk: &[u8]) -> Point
    ensures { PutPast out.old point chunk.now out.new result }
{
    let skip = point.skip;
    let first = skip.min(chunk.len());
    let at = put_bytes(out, point.at, &chunk[first..]);
    Point {
        skip: skip - first,
        at,
    }
}

fn put_header(out: &mut [u8], from: usize) -> Point
    ensures { PutPast out.old (begun from) header out.new result }
{
    let start = Point { skip: from, at: 0 };
    put(
        out,
        start,
        b"$timescale 100 ns $end\n$scope module bus $end\n\
        $var wire 1 ! scl $end\n$var wire 1 \" sda $end\n\
        $upscope $end\n$enddefinitions $end\n",
    )
}

// The text from byte `from` on, as far as the slice goes.
pub(crate) fn write(stamps: &[u32], levels: &[u8], from: usize, out: &mut [u8]) -> Point
    ensures text { PutPast out.old (begun from)
        (dump_text stamps.now levels.now) out.new result }
    ensures bound { length (dump_text stamps.now levels.now)
        ≤ 127 + 18 * length levels.now }
{
    let mut last = before_first(levels);
    let mut line = [0u8; LONGEST_SAMPLE];
    let mut point = put_header(out, from);
    for (stamp, level) in stamps.iter().zip(levels) {
        let n = put_sample(&mut line, last, *stamp, *level);
        point = put(out, point, &line[..n]);
        last = *level;
    }
    point
}

// How long the text is: as many bytes as are left out where more than all of them are to be.
pub(crate) fn text_length(stamps: &[u32], levels: &[u8]) -> usize
    requires { length levels.now ≤ max_samples }
    ensures { result ≡ length (dump_text stamps.now levels.now) }
{
    let mut none = [0u8; 1];
    let end = write(stamps, levels, LONGEST_TEXT, &mut none);
    LONGEST_TEXT - end.skip
}
