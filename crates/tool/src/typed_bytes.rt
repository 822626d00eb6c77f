// Bytes that are typed as hex digits of either case, two to a byte: the keys and a certificate's tag.
use crate::faults::{Attempt, Failure, Fault, Misuse, NoBytes};
use crate::reads;
use arrayvec::ArrayVec;
use std::io::Read;

// The bytes that have been typed so far, as many as fit, and the first digit of one more.
#[derive(Drop)]
struct Typed<const N: usize> {
    bytes: ArrayVec<u8, N>,
    high: Option<u8>,
}

impl<const N: usize> Typed<N> {
    fn new() -> Self {
        Typed {
            bytes: ArrayVec::new(),
            high: None,
        }
    }

    // One more character.
    fn add(&mut self, c: u8) -> Result<(), NoBytes> {
        let digit = digit(c).ok_or(NoBytes::Strange)?;
        match self.high {
            None => self.high = Some(digit),
            Some(high) => {
                let _ = self.bytes.try_push(high << 4 | digit);
                self.high = None;
            }
        }
        Ok(())
    }

    // The characters of a read, of which blanks, tabs and line ends are passed over. Not inlined, so that its loop keeps to registers.
    #[inline(never)]
    fn add_read(&mut self, text: &[u8]) -> Result<(), NoBytes> {
        for c in text {
            if !matches!(c, b' ' | b'\t' | b'\r' | b'\n') {
                self.add(*c)?;
            }
        }
        Ok(())
    }

    // All of it, where no digit is left over.
    fn whole(self) -> Result<ArrayVec<u8, N>, NoBytes> {
        match self.high {
            None => Ok(self.bytes),
            Some(_) => Err(NoBytes::Odd),
        }
    }
}

// The value of a hex digit.
fn digit(c: u8) -> Option<u8> {
    char::from(c).to_digit(16).map(|digit| digit as u8)
}

// The keys, with blanks, tabs and line ends anywhere between their digits. Input of any length and any bytes is answered: it is read
// through a small buffer to its end, or to its first strange character, which settles the answer. Keys have 16 or 32 bytes, and for 33
// the library answers as it does for any longer keys, whether a slip is read or written or a certificate is checked.
#[inline(always)]
pub(crate) fn keys(file: &mut impl Read) -> Result<ArrayVec<u8, 33>, Fault> {
    let mut typed = Typed::new();
    // No input lasts for so many reads.
    reads::each(Attempt::Keys, file, &mut [0u8; 256], u64::MAX, |text| {
        Ok(typed.add_read(text).map_err(Failure::NoKeys)?)
    })?;
    Ok(typed.whole().map_err(Failure::NoKeys)?)
}

// The tag of a word, which has no blanks. A tag has 16 bytes at most, and for 17 the library answers as it does for any longer one.
pub(crate) fn tag(word: &[u8]) -> Result<ArrayVec<u8, 17>, Misuse> {
    let mut typed = Typed::new();
    for c in word {
        typed.add(*c).map_err(Misuse::NoTag)?;
    }
    typed.whole().map_err(Misuse::NoTag)
}
