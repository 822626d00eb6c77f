// The one slip in a file, gathered to the end of input in whatever lengths the system delivers, then read once. The file may be a pipe.
// A slip has 75 bytes at most and the record keeps 76, so of a longer file nothing further is kept, and it gets the answer of the
// whole. A file that cannot be read is an error and never a refusal: nothing is known of its bottle.
use crate::faults::{Attempt, Fault};
use crate::reads;
use crate::words::{say, say_contents};
use std::fs::Files;

// So many reads at most, that a device without an end is answered too. Each but the last brings a byte, so the 76 are there long before.
const MOST_READS: u64 = 65536;

// The slip is asked for once, all of it being there.
pub(crate) fn check(
    rt: &(impl Files + Print),
    name: &[u8],
    agreement: settings::Agreement,
    keys: &[u8],
) -> Result<(), Fault> {
    let gathered = gather(rt, name)?;
    let slip::Slip { calls, contents } = gathered.read(agreement, keys)?;
    say(rt, "accepted\n");
    let lot = slip::lot_in(&gathered.bytes, contents);
    say_contents(rt, contents.date, lot, contents.amount);
    say(rt, format_args!("cipher calls: {calls}\n"));
    Ok(())
}

// Reads to the end of input.
fn gather(rt: &impl Files, name: &[u8]) -> Result<slip::Gathered, Fault> {
    let mut file = reads::open(rt, name)?;
    let mut gathered = slip::Gathered::none();
    reads::each(
        Attempt::Read,
        &mut file,
        &mut [0u8; 256],
        MOST_READS,
        |bytes| {
            gathered = gathered.add(bytes);
            Ok(())
        },
    )?;
    Ok(gathered)
}
