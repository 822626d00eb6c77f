// The three programs on words of this program's own arguments.
ghost use Rattle.std.specs.Prelude.{◌+◌, ◌*◌, ◌≤◌, ◌<◌};

use crate::slips;
use std::env::FillError;
use std::io::Read;
use std::ops::Range;
use std::rt::Runtime;
use std::{fs, io};
use tool::{Certcheck, Slipcheck, Slipprint, Words};

#[derive(Clone, Copy)]
pub(crate) enum Program {
    Slipcheck,
    Certcheck,
    Slipprint,
}

impl Program {
    // The words of a row up to M: the file of the typed keys, and those that the program takes.
    fn width(self) -> usize
        ensures { (0 < result) × (result ≤ 8) }
    {
        match self {
            Program::Slipcheck => 5,
            Program::Certcheck => 6,
            Program::Slipprint => 8,
        }
    }

    fn answer(self, rt: &impl Runtime, typed: &mut impl Read, places: Range<usize>) {
        let words = Words::new(rt, places);
        match self {
            Program::Slipcheck => tool::answer::<Slipcheck>(rt, typed, words),
            Program::Certcheck => tool::answer::<Certcheck>(rt, typed, words),
            Program::Slipprint => tool::answer::<Slipprint>(rt, typed, words),
        }
    }

    // Words alone: a number of them that the program does not take, a word that asks how it is used, the vectors, or another than
    // master in its place.
    pub(crate) fn words(self, rt: &impl Runtime, first: usize, count: usize) -> io::Result<()>
        requires { (first ≤ 65536) × (count ≤ 9) }
    {
        print_words(rt, first..first + count)?;
        self.answer(rt, &mut rt.reader(), first..first + count);
        Ok(())
    }

    // No word at all, then each of the first three arguments alone.
    pub(crate) fn alone(self, rt: &impl Runtime) -> io::Result<()> {
        self.words(rt, 1, 0)?;
        self.words(rt, 1, 1)?;
        self.words(rt, 2, 1)?;
        self.words(rt, 3, 1)
    }

    // So many rows from this argument on. A row is the file of the typed keys, the program's words up to M, and so many after it.
    pub(crate) fn rows(
        self,
        rt: &impl Runtime,
        first: usize,
        rows: usize,
        further: usize,
    ) -> io::Result<()>
        requires { (first + 9 * rows ≤ 4096) × (further ≤ 1) }
    {
        let size = self.width() + further;
        for i in 0..rows {
            self.row(rt, first + size * i, size)?;
        }
        Ok(())
    }

    fn row(self, rt: &impl Runtime, first: usize, size: usize) -> io::Result<()>
        requires { (first ≤ 4096) × ((0 < size) × (size ≤ 9)) }
    {
        let end = first + size;
        print_words(rt, first..end)?;
        let mut typed = open_keys(rt, first)?;
        self.answer(rt, &mut typed, first + 1..end);
        drop(typed);
        match self {
            Program::Slipprint => slips::check_made(rt, first, end),
            Program::Slipcheck | Program::Certcheck => Ok(()),
        }
    }
}

// The file of a row's typed keys, open.
pub(crate) fn open_keys<R: Runtime>(rt: &R, at: usize) -> io::Result<R::File> {
    let mut room = [0u8; 4096];
    match str::from_utf8(word(rt, at, &mut room)) {
        Ok(name) => fs::open(rt, name),
        Err(_) => Err(io::Error::from(io::ErrorKind::InvalidData)),
    }
}

// An argument, in the room; empty where it does not fit.
pub(crate) fn word<'r>(rt: &impl Runtime, at: usize, room: &'r mut [u8]) -> &'r [u8] {
    match rt.arg(at, room) {
        Ok(n) => &room[..n],
        Err(_) => &room[..0],
    }
}

// A line with the arguments at these places.
fn print_words(rt: &impl Runtime, places: Range<usize>) -> io::Result<()> {
    rt.write_all(b"==")?;
    for at in places {
        print_word(rt, at)?;
    }
    rt.write_all(b"\n")
}

// A blank and an argument, of a long one the beginning.
fn print_word(rt: &impl Runtime, at: usize) -> io::Result<()> {
    let mut room = [0u8; 40];
    let given = rt.arg(at, &mut room);
    rt.write_all(b" ")?;
    match given {
        Ok(n) => rt.write_all(&room[..n]),
        Err(FillError::NotPresent) => Ok(()),
        Err(FillError::TooLong) => {
            rt.write_all(&room)?;
            rt.write_all(b"..")
        }
    }
}
