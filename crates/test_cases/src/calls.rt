// Commands with a message in one call.
use crate::printed::{Filled, Told};
use crate::supplier::Supplier;
use crate::words::Words;
use refusals::Refusal;
use settings::Outcome;

// The first so many bits of a message, under what was agreed with a supplier.
#[derive(Drop)]
pub(crate) struct Call {
    pub(crate) supplier: Supplier,
    pub(crate) message: Vec<u8>,
    pub(crate) bits: usize,
}

impl Call {
    fn make(&self, room: &mut [u8]) -> Result<Outcome, Refusal> {
        let Supplier { agreement, keys } = &self.supplier;
        tag::make(*agreement, keys, &self.message, self.bits, room)
    }

    pub(crate) fn check(&self, tag: &[u8]) -> Result<Outcome, Refusal> {
        let Supplier { agreement, keys } = &self.supplier;
        tag::check(*agreement, keys, &self.message, self.bits, tag)
    }

    pub(crate) fn restore(&mut self, block: usize, tag: &[u8]) -> Result<(), Refusal> {
        let Supplier { agreement, keys } = &self.supplier;
        tag::restore(*agreement, keys, &mut self.message, self.bits, block, tag)
    }
}

pub(crate) fn make(rt: &impl Print, mut words: Words) -> anyhow::Result<()> {
    let call = words.call()?;
    let mut room = words.room()?;
    let answer = call.make(&mut room);
    print!(rt; "{}", Filled(answer, &room))?;
    Ok(())
}

pub(crate) fn check(rt: &impl Print, mut words: Words) -> anyhow::Result<()> {
    let call = words.call()?;
    let tag = words.bytes()?;
    print!(rt; "{}", Told(call.check(&tag)))?;
    Ok(())
}
