// Commands on lot slips under what was agreed: one slip read, a slip with each byte changed to every other value, and every beginning
// of a slip.
use crate::changes::each_changed;
use crate::printed::with_values;
use crate::supplier::Supplier;
use crate::words::Words;
use refusals::Refusal;
use slip::{Contents, Slip};
use std::alloc::{AllocError, Global};
use std::collections::BTreeMap;
use std::fmt;

pub(crate) fn slip(rt: &impl Print, mut words: Words) -> anyhow::Result<()> {
    let supplier = words.supplier()?;
    let slip = words.bytes()?;
    print!(rt; "{}", Answer::of(&supplier, &slip))?;
    Ok(())
}

pub(crate) fn changed(rt: &impl Print, mut words: Words) -> anyhow::Result<()> {
    let supplier = words.supplier()?;
    let mut slip = words.bytes()?;
    let by: Vec<u8> = (1..=255).collect(words.alloc)?;
    let mut counts = Counts::new(words.alloc);
    each_changed(&mut slip, &by, |slip| {
        counts.add(Answer::of(&supplier, slip).refusal())?;
        Ok(())
    })?;
    print!(rt; "{counts}")?;
    Ok(())
}

pub(crate) fn prefixes(rt: &impl Print, mut words: Words) -> anyhow::Result<()> {
    let supplier = words.supplier()?;
    let slip = words.bytes()?;
    let mut counts = Counts::new(words.alloc);
    for size in 0..slip.len() {
        counts.add(Answer::of(&supplier, &slip[..size]).refusal())?;
    }
    print!(rt; "{counts}")?;
    Ok(())
}

// ---- one slip

// What was read of a slip, and the part that came back as its lot.
#[derive(Clone, Copy)]
pub(crate) struct Answer<'a> {
    pub(crate) read: Result<Slip, Refusal>,
    pub(crate) lot: &'a [u8],
}

impl<'a> Answer<'a> {
    // In place of a refusal's number: what no slip may get, as a refusal with a value beside it.
    pub(crate) const ODD: usize = 31;

    pub(crate) fn of(supplier: &Supplier, slip: &'a [u8]) -> Answer<'a> {
        Answer {
            read: supplier.read(slip),
            lot: supplier.lot(slip),
        }
    }

    pub(crate) fn agrees_with(&self, other: &Answer) -> bool {
        self.read == other.read && self.lot == other.lot
    }

    // The refusal's number, where the slip is not accepted.
    pub(crate) fn refusal(&self) -> Option<usize> {
        match self.read {
            Ok(_) => None,
            Err(_) if self.has_values() => Some(Answer::ODD),
            Err(refusal) => Some(refusal.number()),
        }
    }

    // Whether another field than the number is not zero, as it is handed to C, or the part is not empty.
    fn has_values(&self) -> bool {
        let told = slipseal::Slip::from(self.read);
        let date = [told.year, told.month, told.day];
        let others = [told.amount, told.calls, told.lot_at, told.lot_len];
        date != [0; 3] || others != [0; 4] || !self.lot.is_empty()
    }
}

impl fmt::Display for Answer<'_> {
    fn fmt<W: fmt::Write>(&self, f: &mut fmt::Formatter<W>) -> fmt::Result {
        let Slip { calls, contents } = match self.read {
            Ok(slip) => slip,
            Err(refusal) => {
                let values = with_values(self.has_values());
                return write!(f, "refused {}{values}", refusal.number());
            }
        };
        let lot = str::from_utf8(self.lot).map_err(|_| fmt::Error)?;
        let Contents {
            date,
            amount,
            lot_at,
            lot_len,
        } = contents;
        write!(f, "accepted {date} lot {lot} at {lot_at} length {lot_len}")?;
        write!(f, " amount {amount} calls {calls}")
    }
}

// ---- many slips

// How many slips were accepted, and how many got which refusal.
#[derive(Drop)]
pub(crate) struct Counts {
    accepted: usize,
    refused: BTreeMap<usize, usize>,
}

impl Counts {
    pub(crate) fn new(alloc: Global) -> Counts {
        Counts {
            accepted: 0,
            refused: BTreeMap::new(alloc),
        }
    }

    pub(crate) fn add(&mut self, refusal: Option<usize>) -> Result<(), AllocError> {
        match refusal {
            None => self.accepted = self.accepted.saturating_add(1),
            Some(number) => {
                let count = self.refused.entry(number)?.or_insert(0);
                *count = count.saturating_add(1);
            }
        }
        Ok(())
    }
}

impl fmt::Display for Counts {
    fn fmt<W: fmt::Write>(&self, f: &mut fmt::Formatter<W>) -> fmt::Result {
        write!(f, "{} accepted", self.accepted)?;
        for (number, count) in self.refused.iter() {
            write!(f, ", {count} refused {number}")?;
        }
        Ok(())
    }
}
