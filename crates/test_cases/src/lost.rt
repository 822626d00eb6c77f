// A lost block of a message worked out.
use crate::calls::Call;
use crate::printed::{Hex, Told, kept};
use crate::words::Words;
use anyhow::Result;

// One byte more than the longest message has.
const LONGER: usize = 1048577;

pub(crate) fn restore(rt: &impl Print, mut words: Words) -> Result<()> {
    let call = words.call()?;
    restored(rt, call, words)
}

pub(crate) fn over(rt: &impl Print, mut words: Words) -> Result<()> {
    let call = Call {
        supplier: words.supplier()?,
        message: vec![in words.alloc; 0; LONGER]?,
        bits: words.number()?,
    };
    restored(rt, call, words)
}

// With the words BLOCK TAG: the message and its check where the block was filled; else whether the message is what it was before.
fn restored(rt: &impl Print, mut call: Call, mut words: Words) -> Result<()> {
    let block = words.number()?;
    let tag = words.bytes()?;
    let before = call.message.clone()?;
    match call.restore(block, &tag) {
        Ok(()) => {
            print!(rt; "filled {} {}", Hex(&call.message), Told(call.check(&tag)))?;
        }
        Err(refusal) => {
            let number = refusal.number();
            print!(rt; "refused {number} {}", kept(call.message == before))?;
        }
    }
    Ok(())
}
