// The program certcheck, which checks a certificate of analysis of up to 1,048,576 bytes under its tag: it reads the keys from standard
// input and the certificate from a file, once and in pieces.
//
//     certcheck FILE TAG ALGORITHM PADDING M           accepted; or rejected, where the tag is another; each with the bits and the
//                                                      cipher calls; or refused, or error, as slipcheck
//     certcheck FILE TAG ALGORITHM PADDING M master    the same, where a master key was agreed
//     certcheck -h                                     how it is used; also --help
//
// The arguments are looked at first, in their order, then the keys, then the library's answer to the start of the check, then the file;
// under padding 3 the file is opened, and its size asked for, before that answer (certificate_file.rt). The program's own buffers, with
// those of the calls it makes on the system, stay below 64 KiB even if they were all in use together:
//
//    32768   a read of the file
//     4096   the file's name
//     4096   its copy in the call that opens it
//     8192   the reader of standard input, though nothing is kept in it
//       24   the digits of a number as it is printed
//      256   a read of the typed keys
//       65   the algorithm, the padding or M
//       34   the tag's digits
//       66   the key bytes, and their copy as they are handed on
//       34   the tag, and its copy as it is handed on
//       16   a word alone, or the word master, and one that is only counted
//        1   for a read of no bytes
//    -----
//    49648   bytes in all
use crate::arguments::Words;
use crate::faults::{Attempt, Fault};
use crate::words::Usage;
use crate::{Program, certificate_file, typed_bytes};
use std::env::Env;
use std::fs::Files;
use std::io::Read;

pub struct Certcheck;

impl Program for Certcheck {
    const USAGE: Usage = Usage {
        words: "certcheck FILE TAG ALGORITHM PADDING M\n",
        what: "    checks the certificate in the file under its tag, in hex digits; the keys are hex
    digits on standard input
    the file is read to its end, and may be a pipe, such as /dev/fd/3, unless the padding is 3
    as in: certcheck certificate D34E754F50B55B4C 5 4 64 (the three numbers as agreed with
    the supplier and kept on file, never as the certificate names them)
",
        words_of_master: "certcheck FILE TAG ALGORITHM PADDING M master\n",
        more: "",
    };

    #[inline(always)]
    fn try_answer(
        rt: &(impl Files + Print),
        typed: &mut impl Read,
        mut words: Words<'_, impl Env>,
    ) -> Result<(), Fault> {
        words.check_count(5)?;
        let mut room = [0u8; 4096];
        let name = words.name(Attempt::Open, &mut room)?;
        // Of the tag 34 digits are enough, which are 17 bytes.
        let tag = typed_bytes::tag(words.next(&mut [0u8; 34]))?;
        let agreement = words.agreement()?;
        let keys = typed_bytes::keys(typed)?;
        certificate_file::check(rt, name, agreement, keys.as_slice(), tag.as_slice())
    }
}
