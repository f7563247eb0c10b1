// The words of the command line that name a file or a load.
use crate::kept;
use crate::kept::ROOM;
use rig_lines::arguments::word;
use rig_lines::files;
use rig_lines::files::Reader;
use rig_lines::input::Source;
use std::fs::File;
use std::rt::{Env, Files};

// Room for what is read at once.
pub(crate) const PIECE: usize = 4096;

// Keeps the word that an argument is, in the cell that begins at a place.
pub(crate) fn keep<E: Env>(env: &E, kept: &mut [u8; ROOM], from: usize, argument: usize) {
    let mut space = io::buffer();
    let n = word(env, argument, &mut space);
    kept::keep_word(kept, from, &space[..n]);
}

// Opens the file of an argument, whose name is kept; argument 0 and the name `-` are standard input, which the reader
// that is lent is.
pub(crate) fn open<R: Files<File = File>>(
    rt: &R,
    reader: &mut Reader,
    kept: &[u8],
    argument: usize,
) -> Result<Source, u64> {
    files::open(rt, reader, argument, kept::file(kept))
}
