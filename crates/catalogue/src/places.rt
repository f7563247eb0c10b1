// One catalogue judged, and where a message lies in its block.
ghost use Rattle.std.specs.Prelude.{◌≡◌, ◌≤◌, ◌<◌, MatchResult, length, get_or, sum, take, ◌^◌};
ghost use Rattle.catalogue.specs.Catalogue.{found_at, judged, lent, refused_by, total};

use crate::lists;

// Where a board's message lies: in the corrections or else in the standing catalogue, from an offset of the block, so
// many bytes. At a refusal its number, and all else 0.
#[derive(Clone, Copy)]
pub struct Located {
    pub number: u8,
    pub corrected: bool,
    pub offset: usize,
    pub length: u32,
}

// A catalogue is good, or the number of its refusal: 40, then 41.
pub(crate) fn judge(block: &[u8], boards: &[u32], lengths: &[u32]) -> Result<(), u8>
    ensures { MatchResult result (λ good. judged (lent block.now boards.now lengths.now) ≡ 0)
        (λ number. (0 < number) × (number ≡ judged (lent block.now boards.now lengths.now))) }
{
    if !lists::rises(boards) {
        return Err(40);
    }
    if (lengths.len() != boards.len()) | !lists::sum_to(lengths, block.len()) {
        return Err(41);
    }
    Ok(())
}

pub(crate) fn refused(number: u8) -> Located
    ensures { result ≡ refused_by number }
{
    Located {
        number,
        corrected: false,
        offset: 0,
        length: 0,
    }
}

// The bytes before the message of an index.
fn offset_of(index: usize, lengths: &[u32]) -> usize
    requires { (index ≤ length lengths.now) × (sum (take index lengths.now) < 2 ^ 64) }
    ensures { result ≡ sum (take index lengths.now) }
{
    lengths[..index].iter().map(|length| *length as usize).sum()
}

// The message of an index of a catalogue that is not refused.
pub(crate) fn found(corrected: bool, index: usize, lengths: &[u32]) -> Located
    requires { (index < length lengths.now) × (total lengths.now < 18446744073709551616) }
    ensures { result ≡ found_at corrected index lengths.now }
{
    Located {
        number: 0,
        corrected,
        offset: offset_of(index, lengths),
        length: lengths[index],
    }
}
