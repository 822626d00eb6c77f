// A message of whole bytes in two pieces, cut at every byte: in how many of these sessions the tag and the calls come out.
use crate::words::Words;
use anyhow::Result;
use session::Session;
use settings::Outcome;

pub(crate) fn halves(rt: &impl Print, mut words: Words) -> Result<()> {
    let supplier = words.supplier()?;
    let message = words.bytes()?;
    let calls = words.number()?;
    let tag = words.bytes()?;
    let begun = supplier.start(bits(&message)).session;
    let good = (0..=message.len())
        .filter(|cut| {
            let (one, two) = message.split_at(*cut);
            comes_out(fed(fed(begun, one), two), &tag, calls)
        })
        .count();
    print!(rt; "{good} of {} cuts", message.len() + 1)?;
    Ok(())
}

fn bits(bytes: &[u8]) -> usize {
    bytes.len().saturating_mul(8)
}

fn fed(session: Session, bytes: &[u8]) -> Session {
    session.piece(bytes, bits(bytes)).session
}

// Whether the finish of a session makes the tag and reports the calls.
fn comes_out(whole: Session, tag: &[u8], calls: usize) -> bool {
    let mut room = [0xEE; 16];
    whole.finish(&mut room).answer == Ok(Outcome::Made(calls)) && room.starts_with(tag)
}
