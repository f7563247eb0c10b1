// An event list: whether it is complete, and how many samples it takes.
ghost use Rattle.std.specs.Prelude.{◌≡◌, ◌+◌, min};
ghost use Rattle.trace.specs.Limits.{max_samples};
ghost use Rattle.encode.specs.Complete as lists;
ghost use Rattle.encode.specs.Encode.{event_samples, sample_count};

use super::Position;
use trace::{MAX_SAMPLES, PARTIAL, REPEATED_START, START, STOP};

// Where a list stands after one more event.
fn advance(position: Position, event: u16) -> Position
    ensures { result ≡ lists.advance position event }
{
    match position {
        Position::Between => match event {
            START => Position::Opened,
            _ => Position::Broken,
        },
        Position::Opened => match event {
            0..=255 => Position::Within,
            256..=511 => Position::Within,
            _ => Position::Broken,
        },
        Position::Within => match event {
            0..=255 => Position::Within,
            256..=511 => Position::Within,
            REPEATED_START => Position::Opened,
            STOP => Position::Between,
            _ => Position::Broken,
        },
        Position::Broken => Position::Broken,
    }
}

// Whether a list may end here.
fn ends(position: Position) -> bool
    ensures { result ≡ lists.ends position }
{
    matches!(position, Position::Between)
}

// Whether a list is complete.
pub(crate) fn complete(events: &[u16]) -> bool
    ensures { result ≡ lists.complete events.now }
{
    let mut position = Position::Between;
    for event in events {
        position = advance(position, *event);
    }
    ends(position)
}

// How many samples an event adds; a START counts those of its STOP too.
fn event_samples(event: u16) -> usize
    ensures { result ≡ event_samples event }
{
    match event {
        0..=255 => 18,
        256..=511 => 18,
        START => 4,
        REPEATED_START => 3,
        STOP => 0,
        PARTIAL => 0,
        _ => 0,
    }
}

// How many samples a list takes; one more than the limit where they are more, however long the list is.
pub(crate) fn count_samples(events: &[u16]) -> usize
    ensures { result ≡ min (sample_count events.now) (max_samples + 1) }
{
    let mut count: usize = 1;
    for event in events {
        count += event_samples(*event);
        if count > MAX_SAMPLES {
            return MAX_SAMPLES + 1;
        }
    }
    count
}
