// A file that is read once, from its first byte to its last, in whatever lengths the system delivers.
use crate::faults::{Attempt, Fault, Undone};
use std::fs::{File, Files};
use std::io::Read;

// A path is text here. Not inlined, so that its copies of the path are gone when the file is read.
#[inline(never)]
pub(crate) fn open<R: Files>(rt: &R, name: &[u8]) -> Result<R::File, Undone> {
    let path = str::from_utf8(name).map_err(|error| Attempt::Open.failed(error))?;
    File::open(rt, path).map_err(|error| Attempt::Open.failed(error))
}

// How the reads of a file came to their end.
#[derive(Clone, Copy)]
pub(crate) enum Reads {
    // With the file.
    All,
    // After as many as were to be made.
    Most,
}

// Reads a file into the room and hands each read on, until the file ends or a read is not taken, so many times at most.
#[inline(always)]
pub(crate) fn each<F: FnMut(&[u8]) -> Result<(), Fault>>(
    attempt: Attempt,
    file: &mut impl Read,
    room: &mut [u8],
    most: u64,
    mut take: F,
) -> Result<Reads, Fault>
    requires { F.IsAlwaysCallable take }
{
    for _ in 0..most {
        match file.read(room) {
            Ok(0) => return Ok(Reads::All),
            Ok(n) => take(&room[..n])?,
            Err(error) => return Err(attempt.failed(error).into()),
        }
    }
    Ok(Reads::Most)
}
