// The words that a program is started with. The last of them, ALGORITHM PADDING M and then master where a master key is in use, are
// what was agreed: they come from here alone, never from a slip.
ghost use Rattle.std.specs.Prelude.{◌≤◌, length, IfOk};

use crate::faults::{Attempt, Misuse, Quantity, Undone};
use crate::numbers;
use settings::Agreement;
use std::env::{Env, FillError};
use std::ops::Range;

// The arguments at these places, taken one after the other.
#[derive(Drop)]
pub struct Words<'a, E> {
    env: &'a E,
    places: Range<usize>,
}

impl<'a, E: Env> Words<'a, E> {
    pub fn new(env: &'a E, places: Range<usize>) -> Self {
        Words { env, places }
    }

    // All that came after the program's own name.
    pub(crate) fn all(env: &'a E) -> Self {
        let end = (1..usize::MAX)
            .find(|at| is_missing(env, *at))
            .unwrap_or(usize::MAX);
        Words::new(env, 1..end)
    }

    // Whether they are this word of seven bytes at most, alone.
    pub(crate) fn are(&self, word: &[u8]) -> bool {
        self.places.len() == 1 && is_word(self.env, self.places.start, word)
    }

    // So many up to M, and then at most the word master.
    pub(crate) fn check_count(&self, taken: usize) -> Result<(), Misuse> {
        match self.places.len().checked_sub(taken) {
            Some(0 | 1) => Ok(()),
            _ => Err(Misuse::Count(taken)),
        }
    }

    // Puts the next one into the room and gives its length.
    fn put(&mut self, room: &mut [u8]) -> Result<usize, FillError>
        ensures { IfOk result (λ n. n ≤ length room.new) }
    {
        match self.places.next() {
            Some(at) => self.env.arg(at, room),
            None => Err(FillError::NotPresent),
        }
    }

    // The next one, in the room. One that is too long fills it, so a room has a byte more than is good.
    pub(crate) fn next<'r>(&mut self, room: &'r mut [u8]) -> &'r [u8] {
        match self.put(room) {
            Ok(n) => &room[..n],
            Err(FillError::NotPresent) => &room[..0],
            Err(FillError::TooLong) => room,
        }
    }

    // The next one, a file's name, in the room.
    pub(crate) fn name<'r>(
        &mut self,
        attempt: Attempt,
        room: &'r mut [u8],
    ) -> Result<&'r [u8], Undone> {
        match self.put(room) {
            Ok(n) => Ok(&room[..n]),
            Err(error) => Err(attempt.failed(error)),
        }
    }

    // The next one, a number.
    pub(crate) fn number(&mut self, what: Quantity) -> Result<usize, Misuse> {
        let mut room = [0u8; 65];
        numbers::number(self.next(&mut room)).ok_or(Misuse::NoNumber(what))
    }

    // What was agreed: all that are left.
    pub(crate) fn agreement(&mut self) -> Result<Agreement, Misuse> {
        let algorithm = self.number(Quantity::Algorithm)?;
        let padding = self.number(Quantity::Padding)?;
        let m = self.number(Quantity::M)?;
        let master = self.master()?;
        Ok(Agreement {
            algorithm,
            padding,
            m,
            master,
        })
    }

    // Whether one more is there, which is the word master.
    fn master(&mut self) -> Result<bool, Misuse> {
        match self.places.next() {
            None => Ok(false),
            Some(at) if is_word(self.env, at, b"master") => Ok(true),
            Some(_) => Err(Misuse::NoMaster),
        }
    }
}

// Whether there is no such argument.
fn is_missing(env: &impl Env, at: usize) -> bool {
    let mut room = [0u8; 8];
    matches!(env.arg(at, &mut room), Err(FillError::NotPresent))
}

// Whether an argument is this word of seven bytes at most.
fn is_word(env: &impl Env, at: usize, word: &[u8]) -> bool {
    let mut room = [0u8; 8];
    match env.arg(at, &mut room) {
        Ok(n) => &room[..n] == word,
        Err(_) => false,
    }
}
