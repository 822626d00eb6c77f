// Why a program gives no answer, in the words that it prints, as whole lines.

use refusals::Refusal;
use std::env::FillError;
use std::str::Utf8Error;
use std::{fmt, io};

#[derive(Clone, Copy)]
pub enum Fault {
    // The words are not those that the program takes: how it is used is said too.
    Misused(Misuse),
    // The keys or the file cannot be had or kept.
    Failed(Failure),
    // The library refused what was asked.
    Refused(Refusal),
}

impl fmt::Display for Fault {
    fn fmt<W: fmt::Write>(&self, f: &mut fmt::Formatter<W>) -> fmt::Result {
        match self {
            Fault::Misused(misuse) => write!(f, "{misuse}"),
            Fault::Failed(failure) => write!(f, "{failure}"),
            Fault::Refused(refusal) => writeln!(f, "refused {}: {refusal}", refusal.number()),
        }
    }
}

impl From<Misuse> for Fault {
    fn from(misuse: Misuse) -> Fault {
        Fault::Misused(misuse)
    }
}

impl From<Failure> for Fault {
    fn from(failure: Failure) -> Fault {
        Fault::Failed(failure)
    }
}

impl From<Undone> for Fault {
    fn from(undone: Undone) -> Fault {
        Fault::Failed(Failure::Undone(undone))
    }
}

impl From<Refusal> for Fault {
    fn from(refusal: Refusal) -> Fault {
        Fault::Refused(refusal)
    }
}

#[derive(Clone, Copy)]
pub enum Misuse {
    // The program takes so many words up to M, and then at most the word master.
    Count(usize),
    NoName,
    NoDate,
    NoNumber(Quantity),
    NoMaster,
    NoTag(NoBytes),
}

impl fmt::Display for Misuse {
    fn fmt<W: fmt::Write>(&self, f: &mut fmt::Formatter<W>) -> fmt::Result {
        match self {
            Misuse::Count(4) => writeln!(f, "error: give four arguments"),
            Misuse::Count(5) => writeln!(f, "error: give five arguments"),
            Misuse::Count(_) => writeln!(f, "error: give seven arguments"),
            Misuse::NoName => writeln!(f, "error: the file's name is empty"),
            Misuse::NoDate => writeln!(f, "error: the date is not written as 2026-11-04"),
            Misuse::NoNumber(what) => writeln!(f, "error: {what} is not written in 1 to 64 digits"),
            Misuse::NoMaster => writeln!(f, "error: the word after M is not master"),
            Misuse::NoTag(NoBytes::Odd) => {
                writeln!(f, "error: the tag has an odd number of hex digits")
            }
            Misuse::NoTag(NoBytes::Strange) => {
                writeln!(f, "error: the tag holds a character that is no hex digit")
            }
        }
    }
}

// What a word gives in digits.
#[derive(Clone, Copy)]
pub enum Quantity {
    Algorithm,
    Padding,
    M,
    Amount,
}

impl fmt::Display for Quantity {
    fn fmt<W: fmt::Write>(&self, f: &mut fmt::Formatter<W>) -> fmt::Result {
        match self {
            Quantity::Algorithm => write!(f, "the algorithm"),
            Quantity::Padding => write!(f, "the padding"),
            Quantity::M => write!(f, "M"),
            Quantity::Amount => write!(f, "the amount"),
        }
    }
}

// Why what was typed as hex digits is no bytes.
#[derive(Clone, Copy)]
pub enum NoBytes {
    Odd,
    // There is a character that is no hex digit.
    Strange,
}

#[derive(Clone, Copy)]
pub enum Failure {
    NoKeys(NoBytes),
    NoSize,
    Undone(Undone),
    // The file that was made could not be written whole or closed, and so was removed again.
    Removed(Undone),
    // It could not be removed either.
    Left(Undone),
}

impl fmt::Display for Failure {
    fn fmt<W: fmt::Write>(&self, f: &mut fmt::Formatter<W>) -> fmt::Result {
        match self {
            Failure::NoKeys(NoBytes::Odd) => {
                writeln!(f, "error: the keys have an odd number of hex digits")
            }
            Failure::NoKeys(NoBytes::Strange) => {
                writeln!(f, "error: the keys hold a character that is no hex digit")
            }
            Failure::NoSize => writeln!(
                f,
                "error: under padding 3 the file's size is needed first, and this file tells none (a pipe never does)"
            ),
            Failure::Undone(undone) => write!(f, "{undone}"),
            Failure::Removed(undone) => writeln!(f, "{undone}it is removed again"),
            Failure::Left(undone) => writeln!(
                f,
                "{undone}it cannot be removed either: a slip or a part of one may be left in it"
            ),
        }
    }
}

impl From<Undone> for Failure {
    fn from(undone: Undone) -> Failure {
        Failure::Undone(undone)
    }
}

// What the system did not do, and why.
#[derive(Clone, Copy)]
pub struct Undone {
    attempt: Attempt,
    reason: Reason,
}

impl fmt::Display for Undone {
    fn fmt<W: fmt::Write>(&self, f: &mut fmt::Formatter<W>) -> fmt::Result {
        match (self.attempt, self.reason) {
            (Attempt::Make, Reason::NoSuchFile) => {
                writeln!(f, "error: the file cannot be made: no such directory")
            }
            (attempt, reason) => writeln!(f, "error: {attempt}: {reason}"),
        }
    }
}

// What the system was asked for.
#[derive(Clone, Copy)]
pub enum Attempt {
    Keys,
    Open,
    Read,
    Make,
    Write,
    Close,
}

impl Attempt {
    pub(crate) fn failed(self, reason: impl Into<Reason>) -> Undone {
        Undone {
            attempt: self,
            reason: reason.into(),
        }
    }
}

impl fmt::Display for Attempt {
    fn fmt<W: fmt::Write>(&self, f: &mut fmt::Formatter<W>) -> fmt::Result {
        match self {
            Attempt::Keys => write!(f, "the keys cannot be read"),
            Attempt::Open => write!(f, "the file cannot be opened"),
            Attempt::Read => write!(f, "the file cannot be read"),
            Attempt::Make => write!(f, "the file cannot be made"),
            Attempt::Write => write!(f, "the file cannot be written"),
            Attempt::Close => write!(f, "the file cannot be closed"),
        }
    }
}

// The system's number for what it was given amiss.
const NO_SUCH_ARGUMENT: i32 = 22;

// Why the system did not do it.
#[derive(Clone, Copy)]
pub enum Reason {
    // A path is text here, and the file's name is none.
    NoText,
    NoSuchFile,
    PermissionDenied,
    Exists,
    NotDirectory,
    IsDirectory,
    NoSpace,
    ReadOnly,
    NameTooLong,
    // Another, by the system's number, 0 where it gave none.
    Other(i32),
}

impl fmt::Display for Reason {
    fn fmt<W: fmt::Write>(&self, f: &mut fmt::Formatter<W>) -> fmt::Result {
        match self {
            Reason::NoText => write!(f, "its name is no text in UTF-8"),
            Reason::NoSuchFile => write!(f, "no such file"),
            Reason::PermissionDenied => write!(f, "permission denied"),
            Reason::Exists => write!(
                f,
                "there is one of that name already, and it stays as it was"
            ),
            Reason::NotDirectory => write!(f, "a part of its path is not a directory"),
            Reason::IsDirectory => write!(f, "it is a directory"),
            Reason::NoSpace => write!(f, "no space is left for it"),
            Reason::ReadOnly => write!(f, "nothing can be written there"),
            Reason::NameTooLong => write!(f, "its name is too long"),
            Reason::Other(number) => write!(f, "the system's error {number}"),
        }
    }
}

// By the numbers that Linux gives its errors.
impl From<io::Error> for Reason {
    fn from(error: io::Error) -> Reason {
        match error.raw_os_error().unwrap_or(0) {
            2 => Reason::NoSuchFile,
            13 => Reason::PermissionDenied,
            17 => Reason::Exists,
            20 => Reason::NotDirectory,
            21 => Reason::IsDirectory,
            28 => Reason::NoSpace,
            30 => Reason::ReadOnly,
            36 => Reason::NameTooLong,
            number => Reason::Other(number.max(0)),
        }
    }
}

impl From<FillError> for Reason {
    fn from(error: FillError) -> Reason {
        match error {
            FillError::NotPresent => Reason::Other(NO_SUCH_ARGUMENT),
            FillError::TooLong => Reason::NameTooLong,
        }
    }
}

impl From<Utf8Error> for Reason {
    fn from(_error: Utf8Error) -> Reason {
        Reason::NoText
    }
}
