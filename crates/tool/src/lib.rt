// All input and output of the programs slipcheck, slipprint (printing.rt) and certcheck (certificate.rt). They tell everything on
// standard output, and by no exit status. slipcheck reads the keys from standard input and one slip from a file,
// which may be a pipe, and says in words whether the slip is to be believed under what was agreed with its supplier:
//
//     slipcheck FILE ALGORITHM PADDING M           accepted and what the slip says; or refused, the number and its meaning; or
//                                                  error and what is wrong
//     slipcheck FILE ALGORITHM PADDING M master    the same, where a master key was agreed
//     slipcheck vectors                            the tags that the standard prints, made anew and compared
//     slipcheck -h                                 how it is used; also --help
//
// The arguments are looked at first, in their order, then the keys, then the file. Its own buffers, with those of the calls it makes on
// the system, would stay far below 64 KiB even if they were all in use together (slipprint's stand in printing.rt, certcheck's in
// certificate.rt):
//
//     4096   the file's name
//     4096   its copy in the call that opens it
//     8192   the reader of standard input, though nothing is kept in it
//       64   the digits of a number as it is printed
//      256   a read of the typed keys
//      256   a read of the file
//       65   the algorithm, the padding or M
//      160   the slip gathered, and its copy as it is handed on
//       66   the key bytes, and their copy as they are handed on
//       16   a word alone, or the word master, and one that is only counted
//       40   the vectors: a tag 8, its digits 16, and as many zeros before them
//    -----
//    17307   bytes in all
#![tactic(auto)]

mod arguments;
mod certificate;
mod certificate_file;
mod faults;
mod new_file;
mod numbers;
mod printing;
mod reads;
mod slip_file;
mod typed_bytes;
mod vectors;
mod words;

pub use arguments::Words;
pub use certificate::Certcheck;
use faults::{Attempt, Fault};
pub use printing::Slipprint;
use std::env::Env;
use std::fs::Files;
use std::io::Read;
use words::{Usage, say};

// A program: how it is used, and what it does with its words and the open file that the keys are typed into.
pub trait Program {
    const USAGE: Usage;

    fn try_answer(
        rt: &(impl Files + Print),
        typed: &mut impl Read,
        words: Words<'_, impl Env>,
    ) -> Result<(), Fault>;
}

// A program as it is started: with all of its arguments, and the keys on standard input.
pub fn run<P: Program>(rt: &(impl Files + Env + Print + Input)) {
    answer::<P>(rt, &mut rt.reader(), Words::all(rt));
}

// What a program says to its words: how it is used, where one word alone asks for it, or its answer.
// Inlined, as all that the reader of standard input goes through, so that the room in it, which nothing is kept in, takes no stack.
#[inline(always)]
pub fn answer<P: Program>(
    rt: &(impl Files + Print),
    typed: &mut impl Read,
    words: Words<'_, impl Env>,
) {
    if words.are(b"-h") || words.are(b"--help") {
        say(rt, P::USAGE);
        return;
    }
    if let Err(fault) = P::try_answer(rt, typed, words) {
        tell::<P>(rt, fault);
    }
}

// Says why a program gives no answer, and how it is used, where that is the fault.
fn tell<P: Program>(rt: &impl Print, fault: Fault) {
    say(rt, fault);
    if let Fault::Misused(_) = fault {
        say(rt, P::USAGE);
    }
}

pub struct Slipcheck;

impl Program for Slipcheck {
    const USAGE: Usage = Usage {
        words: "slipcheck FILE ALGORITHM PADDING M\n",
        what: "    checks the slip in the file; the keys are hex digits on standard input
    the file is read to its end, and may be a pipe, such as /dev/fd/3
    as in: slipcheck slip 5 4 64 (the three numbers as agreed with the supplier and kept
    on file, never as the slip names them)
",
        words_of_master: "slipcheck FILE ALGORITHM PADDING M master\n",
        more: "slipcheck vectors
    runs the published vectors
",
    };

    #[inline(always)]
    fn try_answer(
        rt: &(impl Files + Print),
        typed: &mut impl Read,
        mut words: Words<'_, impl Env>,
    ) -> Result<(), Fault> {
        if words.are(b"vectors") {
            vectors::run(rt);
            return Ok(());
        }
        words.check_count(4)?;
        let mut room = [0u8; 4096];
        let name = words.name(Attempt::Open, &mut room)?;
        check(rt, typed, name, words)
    }
}

// What slipcheck says of the file of this name, where the words are what was agreed.
pub fn answer_named(
    rt: &(impl Files + Print),
    typed: &mut impl Read,
    name: &[u8],
    words: Words<'_, impl Env>,
) {
    if let Err(fault) = check(rt, typed, name, words) {
        tell::<Slipcheck>(rt, fault);
    }
}

#[inline(always)]
fn check(
    rt: &(impl Files + Print),
    typed: &mut impl Read,
    name: &[u8],
    mut words: Words<'_, impl Env>,
) -> Result<(), Fault> {
    let agreement = words.agreement()?;
    let keys = typed_bytes::keys(typed)?;
    slip_file::check(rt, name, agreement, keys.as_slice())
}
