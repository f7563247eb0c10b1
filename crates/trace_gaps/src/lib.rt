// The gaps of a trace, from sample to sample: whether all are alike, and which are so long that samples may be lost.
#![tactic(auto)]

ghost use Rattle.std.specs.Prelude.{◌≡◌, ◌-◌, ◌*◌, ◌≤◌, ltb, length};
ghost use Rattle.trace_gaps.specs.Gaps.{max_gaps, all_apart, even_gap, inside, up_to, tally_of, with_gap};
ghost use Rattle.trace_gaps.specs.Gaps.{average as average_of, fourfold as fourfold_of, usual_gap};

use decode::Decoder;

// A gap is long above so many times the usual one.
const MOST: u64 = 4;

// More gaps are not judged: of so many no sum passes 64 bits, however long they are.
pub const MAX_GAPS: usize = 536870912;

// How many gaps, and how long they are together.
#[derive(Clone, Copy)]
struct Tally {
    count: u64,
    sum: u64,
}

// How far it is from one stamp up to another.
pub fn apart(low: u32, high: u32) -> u32
    ensures { result ≡ high - low }
{
    high.saturating_sub(low)
}

// Whether each stamp is so far from the one before it, which for the first one is given.
fn all_apart(stamps: &[u32], first: u32, gap: u32) -> bool
    ensures { result ≡ all_apart gap first stamps.now }
{
    let mut last = first;
    for stamp in stamps {
        if apart(last, *stamp) != gap {
            return false;
        }
        last = *stamp;
    }
    true
}

// The gap that all samples have; 0 where they differ or there is none.
pub fn even(stamps: &[u32]) -> u32
    ensures { result ≡ even_gap stamps.now }
{
    if stamps.len() < 2 {
        return 0;
    }
    let gap = apart(stamps[0], stamps[1]);
    if all_apart(&stamps[1..], stamps[0], gap) {
        return gap;
    }
    0
}

impl Tally {
    // With a gap, where it lies inside a frame and is not above a limit.
    fn with_gap(self, framed: bool, gap: u32, limit: u64) -> Tally
        requires { (self.count ≤ max_gaps) × (self.sum ≤ max_gaps * 4294967296) }
        ensures { result ≡ with_gap framed gap limit self }
    {
        if !framed {
            return self;
        }
        if gap as u64 > limit {
            return self;
        }
        Tally {
            count: self.count + 1,
            sum: self.sum + gap as u64,
        }
    }

    fn average(self) -> u64
        ensures { result ≡ average_of self }
    {
        if self.count == 0 {
            return 0;
        }
        self.sum / self.count
    }

    // Four times the average.
    fn fourfold(self) -> u64
        requires { self.sum ≤ max_gaps * 4294967296 }
        ensures { result ≡ fourfold_of self }
    {
        if self.count == 0 {
            return 0;
        }
        MOST * self.sum / self.count
    }
}

// The gaps inside frames that are not above a limit.
fn counted(stamps: &[u32], levels: &[u8], limit: u64) -> Tally
    requires { length stamps.now ≤ max_gaps }
    ensures tally { result ≡ tally_of (up_to limit (inside stamps.now levels.now)) }
    ensures small { result.sum ≤ max_gaps * 4294967296 }
{
    let mut decoder = Decoder::idle();
    let mut tally = Tally { count: 0, sum: 0 };
    let mut last: u32 = 0;
    for (stamp, level) in stamps.iter().zip(levels) {
        tally = tally.with_gap(decoder.framed, apart(last, *stamp), limit);
        decoder = decoder.step(*level).decoder;
        last = *stamp;
    }
    tally
}

// The usual gap inside frames: their average, without those above four times the average of all.
// 0 where no gap lies inside a frame, or there are more samples than are judged.
pub fn usual(stamps: &[u32], levels: &[u8]) -> u64
    ensures { result ≡ usual_gap stamps.now levels.now }
{
    if stamps.len() > MAX_GAPS {
        return 0;
    }
    let limit = counted(stamps, levels, u64::MAX).fourfold();
    counted(stamps, levels, limit).average()
}

// Whether a gap inside a frame is so long that samples may be lost in it.
pub fn is_long(gap: u32, usual: u64) -> bool
    ensures { result ≡ ltb (4 * usual) gap }
{
    u64::from(gap) > MOST.saturating_mul(usual)
}
