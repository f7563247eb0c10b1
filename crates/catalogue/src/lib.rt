// Tonight's corrections over the standing catalogue: which part of the caller's bytes is a board's message.
#![tactic(auto)]

ghost use Rattle.std.specs.Prelude.{◌≡◌};
ghost use Rattle.catalogue.specs.Catalogue.{lent, located, message_of, number_of};

mod lists; // lists.rt: boards that rise, lengths that sum to a block, a board sought
mod places; // places.rt: one catalogue judged, and where a message lies in its block

pub use places::Located;

// Where a board's message lies: in the corrections if they list the board, else in the standing catalogue. Both
// catalogues are judged whatever the board is.
pub fn locate(
    board: u32,
    corrections: &[u8],
    correction_boards: &[u32],
    correction_lengths: &[u32],
    standing: &[u8],
    standing_boards: &[u32],
    standing_lengths: &[u32],
) -> Located
    ensures { result ≡ located board
        (lent corrections.now correction_boards.now correction_lengths.now)
        (lent standing.now standing_boards.now standing_lengths.now) }
{
    if let Err(number) = places::judge(corrections, correction_boards, correction_lengths) {
        return places::refused(number);
    }
    if let Err(number) = places::judge(standing, standing_boards, standing_lengths) {
        return places::refused(number);
    }
    if let Some(index) = lists::index_of(board, correction_boards) {
        return places::found(true, index, correction_lengths);
    }
    if let Some(index) = lists::index_of(board, standing_boards) {
        return places::found(false, index, standing_lengths);
    }
    places::refused(42)
}

// The number of the refusal, 0 where the board is found: 40, 41 of the corrections, 40, 41 of the standing catalogue,
// then 42.
pub fn number(
    board: u32,
    corrections: &[u8],
    correction_boards: &[u32],
    correction_lengths: &[u32],
    standing: &[u8],
    standing_boards: &[u32],
    standing_lengths: &[u32],
) -> u8
    ensures { result ≡ number_of board
        (lent corrections.now correction_boards.now correction_lengths.now)
        (lent standing.now standing_boards.now standing_lengths.now) }
{
    let place = locate(
        board,
        corrections,
        correction_boards,
        correction_lengths,
        standing,
        standing_boards,
        standing_lengths,
    );
    place.number
}

// The board's message, a part of the caller's own bytes; empty at a refusal.
pub fn part<'a>(
    board: u32,
    corrections: &'a [u8],
    correction_boards: &[u32],
    correction_lengths: &[u32],
    standing: &'a [u8],
    standing_boards: &[u32],
    standing_lengths: &[u32],
) -> &'a [u8]
    ensures { result.now ≡ message_of board
        (lent corrections.now correction_boards.now correction_lengths.now)
        (lent standing.now standing_boards.now standing_lengths.now) }
{
    let place = locate(
        board,
        corrections,
        correction_boards,
        correction_lengths,
        standing,
        standing_boards,
        standing_lengths,
    );
    if place.number != 0 {
        return &standing[..0];
    }
    let from = place.offset;
    let to = from + (place.length as usize);
    if place.corrected {
        return &corrections[from..to];
    }
    &standing[from..to]
}
