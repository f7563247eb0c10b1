// Corrections over the standing catalogue, for callers in C or Rust: the number, and where the message lies. C has one
// function to each number, all with the same parameters.
ghost use Rattle.std.specs.Prelude.{◌≡◌};
ghost use mir.Val.{bool_byte};
ghost use Rattle.catalogue.specs.Catalogue.{lent, located, number_of};

// The number of the refusal, 0 where the board is found.
#[unsafe(no_mangle)]
pub extern "C" fn kan_catalogue_number(
    board: u32,
    corrections: &[u8],
    correction_boards: &[u32],
    correction_lengths: &[u32],
    standing: &[u8],
    standing_boards: &[u32],
    standing_lengths: &[u32],
) -> u8
    ensures { result ≡ number_of board
        (lent corrections.now correction_boards.now correction_lengths.now)
        (lent standing.now standing_boards.now standing_lengths.now) }
{
    catalogue::number(
        board,
        corrections,
        correction_boards,
        correction_lengths,
        standing,
        standing_boards,
        standing_lengths,
    )
}

// 1 where the message lies in the corrections, 0 where it lies in the standing catalogue, and at a refusal.
#[unsafe(no_mangle)]
pub extern "C" fn kan_catalogue_corrected(
    board: u32,
    corrections: &[u8],
    correction_boards: &[u32],
    correction_lengths: &[u32],
    standing: &[u8],
    standing_boards: &[u32],
    standing_lengths: &[u32],
) -> u8
    ensures { result ≡ bool_byte (located board
        (lent corrections.now correction_boards.now correction_lengths.now)
        (lent standing.now standing_boards.now standing_lengths.now)
        ).corrected }
{
    let place = catalogue::locate(
        board,
        corrections,
        correction_boards,
        correction_lengths,
        standing,
        standing_boards,
        standing_lengths,
    );
    place.corrected as u8
}

// The offset of the message in its block, 0 at a refusal.
#[unsafe(no_mangle)]
pub extern "C" fn kan_catalogue_offset(
    board: u32,
    corrections: &[u8],
    correction_boards: &[u32],
    correction_lengths: &[u32],
    standing: &[u8],
    standing_boards: &[u32],
    standing_lengths: &[u32],
) -> u64
    ensures { result ≡ (located board
        (lent corrections.now correction_boards.now correction_lengths.now)
        (lent standing.now standing_boards.now standing_lengths.now)
        ).offset }
{
    let place = catalogue::locate(
        board,
        corrections,
        correction_boards,
        correction_lengths,
        standing,
        standing_boards,
        standing_lengths,
    );
    place.offset as u64
}

// The length of the message, 0 at a refusal.
#[unsafe(no_mangle)]
pub extern "C" fn kan_catalogue_length(
    board: u32,
    corrections: &[u8],
    correction_boards: &[u32],
    correction_lengths: &[u32],
    standing: &[u8],
    standing_boards: &[u32],
    standing_lengths: &[u32],
) -> u32
    ensures { result ≡ (located board
        (lent corrections.now correction_boards.now correction_lengths.now)
        (lent standing.now standing_boards.now standing_lengths.now)
        ).length }
{
    let place = catalogue::locate(
        board,
        corrections,
        correction_boards,
        correction_lengths,
        standing,
        standing_boards,
        standing_lengths,
    );
    place.length
}
