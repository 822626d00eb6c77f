// Commands on one session, which goes from line to line.
use crate::gathered::padded;
use crate::printed::{Filled, Told};
use crate::words::Words;
use anyhow::{Result, bail};
use session::{Phase, Purpose, Session, Step};
use settings::Agreement;
use std::fmt;

// The session, and whether the last command on it left every field as it was.
#[derive(Drop)]
pub(crate) struct State {
    session: Session,
    same: bool,
}

impl State {
    // The record that a refused start hands out.
    pub(crate) fn closed() -> State {
        let agreement = Agreement {
            algorithm: 0,
            padding: 0,
            m: 0,
            master: false,
        };
        State {
            session: session::start(agreement, b"", 0).session,
            same: true,
        }
    }

    pub(crate) fn start(&mut self, rt: &impl Print, mut words: Words) -> Result<()> {
        let supplier = words.supplier()?;
        let declared = words.number()?;
        self.told(rt, supplier.start(declared))
    }

    pub(crate) fn start_check(&mut self, rt: &impl Print, mut words: Words) -> Result<()> {
        let supplier = words.supplier()?;
        let declared = words.number()?;
        let tag = words.bytes()?;
        self.told(rt, supplier.start_check(declared, &tag))
    }

    pub(crate) fn piece(&mut self, rt: &impl Print, mut words: Words) -> Result<()> {
        let bytes = words.bytes()?;
        let bits = words.number()?;
        self.told(rt, self.session.piece(&bytes, bits))
    }

    pub(crate) fn zeros(&mut self, rt: &impl Print, mut words: Words) -> Result<()> {
        let size = words.number()?;
        let pieces = words.number()?;
        let bytes = vec![in words.alloc; 0; size]?;
        let bits = size.saturating_mul(8);
        let mut step = self.session.piece(&bytes, bits);
        for _ in 1..pieces {
            step = step.session.piece(&bytes, bits);
        }
        self.told(rt, step)
    }

    pub(crate) fn finish(&mut self, rt: &impl Print, mut words: Words) -> Result<()> {
        let mut room = words.room()?;
        let step = self.session.finish(&mut room);
        self.goes_on(rt, Filled(step.answer, &room), step.session)
    }

    pub(crate) fn finish_check(&mut self, rt: &impl Print) -> Result<()> {
        self.told(rt, self.session.finish_check())
    }

    // Whether the last command left every field as it was.
    pub(crate) fn tell(&self, rt: &impl Print) -> Result<()> {
        let what = if self.same { "same" } else { "changed" };
        print!(rt; "{what}, {}", PhaseName(self.session.phase))?;
        Ok(())
    }

    // The same record for a purpose, with a tag expected.
    pub(crate) fn aim(&mut self, rt: &impl Print, mut words: Words) -> Result<()> {
        let mut aimed = self.session;
        aimed.purpose = match words.number()? {
            0 => Purpose::Making,
            1 => Purpose::Checking,
            _ => bail!("no such purpose"),
        };
        aimed.expected = padded(&words.bytes()?);
        self.goes_on(rt, "aimed", aimed)
    }

    // A record of any content, for making.
    pub(crate) fn forge(&mut self, rt: &impl Print, mut words: Words) -> Result<()> {
        let phase = words.number()?;
        let part = words.number()?;
        let phase = match phase {
            0 => Phase::Closed,
            1 => Phase::Edge,
            2 => Phase::Part(part),
            _ => bail!("no such phase"),
        };
        let agreement = words.agreement()?;
        let declared = words.number()?;
        let total = words.number()?;
        let keys = block::pair(words.block()?, words.block()?);
        let value = words.block()?;
        let held = words.block()?;
        let forged = Session {
            phase,
            purpose: Purpose::Making,
            agreement,
            declared,
            total,
            keys,
            hold: chain::Hold { value, held },
            expected: [0; 16],
        };
        self.goes_on(rt, "forged", forged)
    }

    // A step's answer, printed; the session is the step's.
    fn told(&mut self, rt: &impl Print, step: Step) -> Result<()> {
        self.goes_on(rt, Told(step.answer), step.session)
    }

    // What a command answers, printed; and the session after it.
    fn goes_on(
        &mut self,
        rt: &impl Print,
        answer: impl fmt::Display + Drop,
        after: Session,
    ) -> Result<()> {
        self.same = self.session == after;
        self.session = after;
        print!(rt; "{answer}, {}", PhaseName(after.phase))?;
        Ok(())
    }
}

#[derive(Clone, Copy)]
struct PhaseName(Phase);

impl fmt::Display for PhaseName {
    fn fmt<W: fmt::Write>(&self, f: &mut fmt::Formatter<W>) -> fmt::Result {
        match self.0 {
            Phase::Closed => write!(f, "closed"),
            Phase::Edge => write!(f, "edge"),
            Phase::Part(bits) => write!(f, "part {bits}"),
        }
    }
}
