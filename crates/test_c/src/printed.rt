// What C is handed, as it is printed.
use slipseal::{Answer, Session, Slip, Written};
use std::fmt;

// Bytes as hex digits.
#[derive(Clone, Copy)]
pub(crate) struct Hex<'a>(pub(crate) &'a [u8]);

impl fmt::Display for Hex<'_> {
    fn fmt<W: fmt::Write>(&self, f: &mut fmt::Formatter<W>) -> fmt::Result {
        for byte in self.0 {
            write!(f, "{byte:02x}")?;
        }
        Ok(())
    }
}

// The numbers of a struct.
#[derive(Clone, Copy)]
pub(crate) struct Told<T>(pub(crate) T);

impl fmt::Display for Told<Answer> {
    fn fmt<W: fmt::Write>(&self, f: &mut fmt::Formatter<W>) -> fmt::Result {
        let Answer { number, yes, calls } = self.0;
        write!(f, "{number} {yes} {calls}")
    }
}

impl fmt::Display for Told<Session> {
    fn fmt<W: fmt::Write>(&self, f: &mut fmt::Formatter<W>) -> fmt::Result {
        let Session {
            phase,
            part,
            purpose,
            total,
            ..
        } = self.0;
        write!(f, "{phase} {part} {purpose} {total}")
    }
}

impl fmt::Display for Told<Slip> {
    fn fmt<W: fmt::Write>(&self, f: &mut fmt::Formatter<W>) -> fmt::Result {
        let Slip {
            number,
            year,
            month,
            day,
            amount,
            calls,
            lot_at,
            lot_len,
        } = self.0;
        write!(
            f,
            "{number} {year} {month} {day} {amount} {calls} {lot_at} {lot_len}"
        )
    }
}

impl fmt::Display for Told<Written> {
    fn fmt<W: fmt::Write>(&self, f: &mut fmt::Formatter<W>) -> fmt::Result {
        let Written {
            number,
            length,
            calls,
        } = self.0;
        write!(f, "{number} {length} {calls}")
    }
}
