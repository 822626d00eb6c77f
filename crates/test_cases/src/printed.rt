// Answers and bytes as they are printed.
use refusals::Refusal;
use settings::Outcome;
use std::fmt;

// Bytes as hex digits.
#[derive(Clone, Copy)]
pub(crate) struct Hex<'a>(pub(crate) &'a [u8]);

impl fmt::Display for Hex<'_> {
    fn fmt<W: fmt::Write>(&self, f: &mut fmt::Formatter<W>) -> fmt::Result {
        for byte in self.0 {
            write!(f, "{byte:02X}")?;
        }
        Ok(())
    }
}

// What a call came to.
#[derive(Clone, Copy)]
pub(crate) struct Told(pub(crate) Result<Outcome, Refusal>);

impl fmt::Display for Told {
    fn fmt<W: fmt::Write>(&self, f: &mut fmt::Formatter<W>) -> fmt::Result {
        match self.0 {
            Ok(Outcome::Accepted) => write!(f, "accepted"),
            Ok(Outcome::Made(calls)) => write!(f, "made {calls} calls"),
            Ok(Outcome::Yes(calls)) => write!(f, "yes {calls} calls"),
            Ok(Outcome::No(calls)) => write!(f, "no {calls} calls"),
            Err(refusal) => write!(f, "refused {}", refusal.number()),
        }
    }
}

// Each byte of a room before a call.
pub(crate) const BEFORE: u8 = 0xEE;

// What a call came to that was lent a room: with the room's bytes where a tag was made, else with whether they are untouched.
#[derive(Clone, Copy)]
pub(crate) struct Filled<'a>(pub(crate) Result<Outcome, Refusal>, pub(crate) &'a [u8]);

impl fmt::Display for Filled<'_> {
    fn fmt<W: fmt::Write>(&self, f: &mut fmt::Formatter<W>) -> fmt::Result {
        let Filled(answer, room) = *self;
        match answer {
            Ok(Outcome::Made(_)) => write!(f, "{} {}", Told(answer), Hex(room)),
            _ => write!(f, "{} {}", Told(answer), room_kept(room)),
        }
    }
}

// Whether each byte of a room is still what it was.
pub(crate) fn room_kept(room: &[u8]) -> &'static str {
    kept(room.iter().all(|byte| *byte == BEFORE))
}

pub(crate) fn kept(untouched: bool) -> &'static str {
    if untouched { "untouched" } else { "CHANGED" }
}

// After a refusal's number, where a value comes with it that is not zero.
pub(crate) fn with_values(has_values: bool) -> &'static str {
    if has_values { " with values" } else { "" }
}
