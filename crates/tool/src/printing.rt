// The program slipprint, which prints a slip of our own: it reads the keys from standard input, seals what its arguments say, and writes
// the slip into a new file. It never writes over a file, for a printed slip is evidence.
//
//     slipprint FILE DATE LOT AMOUNT ALGORITHM PADDING M           printed and what the slip says; or refused, or error, as
//                                                                  slipcheck
//     slipprint FILE DATE LOT AMOUNT ALGORITHM PADDING M master    the same, where a master key was agreed
//     slipprint -h                                                 how it is used; also --help
//
// The arguments are looked at first, in their order, then the keys, then the library's answer, then the file: so a refusal leaves no
// new file, nor does an error, but where the system takes no removal either, and then it is said. The program's own buffers, with those
// of the calls it makes on the system:
//
//     4096   the file's name
//     4096   its copy in the call that makes it or removes it
//     8192   the reader of standard input, though nothing is kept in it
//       24   the digits of a number as it is printed
//      256   a read of the typed keys
//       75   the slip
//       65   the amount, the algorithm, the padding or M
//       66   the key bytes, and their copy as they are handed on
//       33   the lot
//       11   the date
//       16   a word alone, or the word master, and one that is only counted
//    -----
//    16930   bytes in all
use crate::arguments::Words;
use crate::faults::{Attempt, Fault, Misuse, Quantity};
use crate::words::{Usage, say, say_contents};
use crate::{Program, new_file, numbers, typed_bytes};
use slip::{Printed, Said};
use std::env::Env;
use std::fs;
use std::fs::Files;
use std::io::Read;

pub struct Slipprint;

impl Program for Slipprint {
    const USAGE: Usage = Usage {
        words: "slipprint FILE DATE LOT AMOUNT ALGORITHM PADDING M\n",
        what: "    writes a sealed slip into a new file; the keys are hex digits on standard input
    as in: slipprint slip 2026-11-04 A7 500 5 4 64 (500 microlitres, a tag of 64 bits)
",
        words_of_master: "slipprint FILE DATE LOT AMOUNT ALGORITHM PADDING M master\n",
        more: "",
    };

    // The slip is made first and then written.
    #[inline(always)]
    fn try_answer(
        rt: &(impl Files + Print),
        typed: &mut impl Read,
        mut words: Words<'_, impl Env>,
    ) -> Result<(), Fault> {
        words.check_count(7)?;
        let mut name_room = [0u8; 4096];
        let name = words.name(Attempt::Make, &mut name_room)?;
        if name.is_empty() {
            return Err(Fault::Misused(Misuse::NoName));
        }
        let date = numbers::date(words.next(&mut [0u8; 11])).ok_or(Misuse::NoDate)?;
        let mut lot_room = [0u8; 33];
        let lot = words.next(&mut lot_room);
        let amount = words.number(Quantity::Amount)?;
        let agreement = words.agreement()?;
        let keys = typed_bytes::keys(typed)?;
        let mut room = [0u8; 75];
        let said = Said { date, lot, amount };
        let Printed { length, calls } = slip::write(agreement, keys.as_slice(), said, &mut room)?;
        let path = str::from_utf8(name).map_err(|error| Attempt::Make.failed(error))?;
        new_file::write(rt, path, &room[..length.min(75)])?;
        if rt.write_all(b"printed\n").is_err() {
            // Nobody could be told of it.
            let _ = fs::remove_file(rt, path);
            return Ok(());
        }
        say_contents(rt, date, lot, amount);
        say(
            rt,
            format_args!("length: {length} bytes\ncipher calls: {calls}\n"),
        );
        Ok(())
    }
}
