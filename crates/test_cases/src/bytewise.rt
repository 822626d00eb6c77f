// A session that checks a tag, fed byte by byte: its answer, those to the tag with each bit turned, and that to the message with its
// first bit turned.
use crate::calls::Call;
use crate::changes::each_changed;
use crate::printed::Told;
use crate::words::Words;
use refusals::Refusal;
use settings::Outcome;

const BITS: [u8; 8] = [1, 2, 4, 8, 16, 32, 64, 128];

pub(crate) fn bytewise(rt: &impl Print, mut words: Words) -> anyhow::Result<()> {
    let mut call = words.call()?;
    let mut tag = words.bytes()?;
    let answer = call.check_bytewise(&tag);
    let mut turned = 0usize;
    let mut good = 0usize;
    each_changed(&mut tag, &BITS, |tag| {
        turned = turned.saturating_add(1);
        if call.check_bytewise(tag) == Ok(Outcome::No(calls_of(answer))) {
            good = good.saturating_add(1);
        }
        Ok(())
    })?;
    print!(rt; "{}, {good} of {turned} turned: no", Told(answer))?;
    if let Some(first) = call.message.first_mut() {
        *first ^= 128;
    }
    print!(rt; ", message turned: {}", Told(call.check_bytewise(&tag)))?;
    Ok(())
}

impl Call {
    // What the session answers; the last byte comes with the bits that are left.
    fn check_bytewise(&self, tag: &[u8]) -> Result<Outcome, Refusal> {
        let mut session = self.supplier.start_check(self.bits, tag).session;
        let mut left = self.bits;
        if self.message.is_empty() {
            session = session.piece(b"", left).session;
        }
        for byte in self.message.chunks(1) {
            let bits = left.min(8);
            session = session.piece(byte, bits).session;
            left -= bits;
        }
        session.finish_check().answer
    }
}

// The calls that a check reports, and 0 where it was refused.
fn calls_of(answer: Result<Outcome, Refusal>) -> usize {
    match answer {
        Ok(Outcome::Yes(calls) | Outcome::No(calls)) => calls,
        _ => 0,
    }
}
