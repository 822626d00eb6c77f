// What is printed: how a program is used, and what a slip says.

use slip::Date;
use std::fmt;

// Standard output, piece by piece as a text is put together. Nobody can be told that nothing can be told: a piece that is not taken is
// let go, and the next is tried.
#[derive(Drop)]
struct Pieces<'a, P> {
    to: &'a P,
}

impl<P: Print> fmt::Write for Pieces<'_, P> {
    fn write_str(&mut self, piece: &str) -> fmt::Result {
        let _ = self.to.write_all(piece.as_bytes());
        Ok(())
    }
}

// What is said, each literal and each value of it as a piece.
pub(crate) fn say(rt: &impl Print, what: impl fmt::Display + Drop) {
    let _ = fmt::Write::write(&mut Pieces { to: rt }, what);
}

// How a program is used: its words without the word master, what it does, its words with it, and what else it does, in whole lines.
#[derive(Clone, Copy)]
pub struct Usage {
    pub words: &'static str,
    pub what: &'static str,
    pub words_of_master: &'static str,
    pub more: &'static str,
}

const OF_MASTER: &str =
    "    the same where a master key was agreed: the keys are the master alone (algorithms 2
    and 6), or K and then the master (algorithm 4)
";

// Each line is a piece.
impl fmt::Display for Usage {
    fn fmt<W: fmt::Write>(&self, f: &mut fmt::Formatter<W>) -> fmt::Result {
        for part in [
            self.words,
            self.what,
            self.words_of_master,
            OF_MASTER,
            self.more,
        ] {
            for line in part.split_inclusive('\n') {
                f.write_str(line)?;
            }
        }
        Ok(())
    }
}

// What a slip says. Its lot is printed as its bytes.
pub(crate) fn say_contents(rt: &impl Print, date: Date, lot: &[u8], amount: usize) {
    say(rt, format_args!("expiry: {date}\nlot: "));
    let _ = rt.write_all(lot);
    say(rt, format_args!("\namount: {amount} microlitres\n"));
}
