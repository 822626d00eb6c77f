// Commands on lot slips that come in reads: gathered into a record, and read from it.
use crate::printed::Hex;
use crate::slips::{Answer, Counts};
use crate::supplier::Supplier;
use crate::words::Words;
use anyhow::{Result, ensure};
use slip::{Contents, Date, Gathered};
use std::array;

// Every beginning of a slip, none and the whole included, as the first read: alone, and with the rest as the second read.
pub(crate) fn firsts(rt: &impl Print, mut words: Words) -> Result<()> {
    let supplier = words.supplier()?;
    let slip = words.bytes()?;
    let mut alone = Counts::new(words.alloc);
    let mut with_rest = Counts::new(words.alloc);
    for size in 0..=slip.len() {
        let (first, rest) = slip.split_at(size);
        let came = Gathered::none().add(first);
        alone.add(refusal(&supplier, came, first))?;
        with_rest.add(refusal(&supplier, came.add(rest), &slip))?;
    }
    print!(rt; "alone {alone}; with the rest {with_rest}")?;
    Ok(())
}

// A slip in reads of so many bytes, the last one of what is left, each after a read of no bytes.
pub(crate) fn trickled(rt: &impl Print, mut words: Words) -> Result<()> {
    let supplier = words.supplier()?;
    let slip = words.bytes()?;
    let size = words.number()?;
    ensure!(size != 0, "a slip does not come in reads of no bytes");
    // an empty slip comes in one read, which has no bytes
    let empty = slip.is_empty().then_some(slip.as_slice());
    let came = slip
        .chunks(size)
        .chain(empty)
        .fold(Gathered::none(), |came, read| came.add(b"").add(read));
    print!(rt; "{}", answer(&supplier, &came))?;
    Ok(())
}

// A record of any count and bytes: as it is, and with one more read; and the record that this read leaves.
pub(crate) fn record(rt: &impl Print, mut words: Words) -> Result<()> {
    let supplier = words.supplier()?;
    let came = Gathered {
        count: words.number()?,
        bytes: padded(&words.bytes()?),
    };
    let after = came.add(&words.bytes()?);
    print!(rt; "alone {}", answer(&supplier, &came))?;
    print!(rt; "; with the read {}", answer(&supplier, &after))?;
    print!(rt; "; record {} {}", after.count, Hex(&after.bytes))?;
    Ok(())
}

// What a record is answered; the lot is a part of its bytes, a refused one's too.
fn answer<'a>(supplier: &Supplier, came: &'a Gathered) -> Answer<'a> {
    let read = supplier.read_gathered(*came);
    let lot = slip::lot_in(&came.bytes, contents(read.into()));
    Answer { read, lot }
}

// What a slip says, as it is handed to C: zeros where it is refused.
fn contents(told: slipseal::Slip) -> Contents {
    let slipseal::Slip {
        year,
        month,
        day,
        amount,
        lot_at,
        lot_len,
        ..
    } = told;
    Contents {
        date: Date { year, month, day },
        amount,
        lot_at,
        lot_len,
    }
}

// The refusal that the record of these bytes gets; an odd one where it is not their record, and where its answer or lot is not that of
// the bytes in one piece.
fn refusal(supplier: &Supplier, came: Gathered, slip: &[u8]) -> Option<usize> {
    let answer = answer(supplier, &came);
    if holds(&came, slip) && answer.agrees_with(&Answer::of(supplier, slip)) {
        answer.refusal()
    } else {
        Some(Answer::ODD)
    }
}

// Whether a record's count and bytes are those of what is kept of a slip, the first 76 bytes, with zeros after it.
fn holds(came: &Gathered, slip: &[u8]) -> bool {
    let kept = &slip[..slip.len().min(76)];
    came.count == kept.len() && came.bytes == padded(kept)
}

// The bytes, as many as there are places, and zeros after them.
pub(crate) fn padded<const N: usize>(bytes: &[u8]) -> [u8; N] {
    array::from_fn(|place| bytes.get(place).copied().unwrap_or(0))
}
