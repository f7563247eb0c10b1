// The frames of a capture: its events cut before each START.
ghost use Rattle.std.specs.Prelude.{◌+◌, ◌≡◌, length, take, drop};
ghost use Rattle.laws.specs.Search.{first};
ghost use Rattle.frame_match.specs.Frames.{is_start, frame_at};

use trace::START;

// The events from a place on up to another, as far as there are.
pub fn span(events: &[u16], from: usize, to: usize) -> &[u16]
    ensures { result.now ≡ drop from (take to events.now) }
{
    let end = to.min(events.len());
    let start = from.min(end);
    &events[start..end]
}

// The first START from a place on, or where the events end.
pub fn start_from(seen: &[u16], from: usize) -> usize
    ensures { result ≡ from + first is_start (drop from seen.now) }
{
    for i in from..seen.len() {
        if seen[i] == START {
            return i;
        }
    }
    from.max(seen.len())
}

// Where the frame ends that begins at a place.
pub fn end_of(seen: &[u16], from: usize) -> usize
    ensures { result ≡ from + length (frame_at seen.now from) }
{
    if from < seen.len() {
        return start_from(seen, from + 1);
    }
    from
}

// The frame that begins at a place.
pub(crate) fn frame_at(seen: &[u16], from: usize) -> &[u16]
    ensures { result.now ≡ frame_at seen.now from }
{
    span(seen, from, end_of(seen, from))
}
