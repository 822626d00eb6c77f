// The functions that C calls, each with what C hands it: a tag is made and checked; each block of a message is lost and restored, one that
// is not there or not whole is refused, as are a tag that is not a full one and one that is a byte short, and a false tag restores
// to a block that a check says yes to; a session is started, fed, tried too early, with too little room and with the finish of a
// check, and finished; a struct whose phase is none of the three comes back as it came; a tag is checked in a session, tried with
// the finish for making, and gets yes, and no where a spare bit is set; a struct whose purpose is neither of the two comes back as
// it came; a slip is read under what was agreed, under another key and under another m; the same slip is gathered from two reads,
// and read after the first, after both and with one byte more; two records with junk in them, one with a forged count, are read and
// gathered on; the same slip is written, and refused a room that is a byte too small; and under a master, with each number that may
// stand for it, tags are made and checked, in sessions too, a struct whose master is neither 0 nor 1 comes back as it came, slips are
// written and read, and a block is restored. Every answer is known beforehand (docs/ARCHITECTURE.md, "Tests").
#![tactic(auto)]

mod masters;
mod printed;
mod sessions;
mod slips;
mod tags;

use slipseal::Agreement;
use std::io;

const KEYS: [u8; 32] = *b"\
    \x01\x23\x45\x67\x89\xab\xcd\xef\xfe\xdc\xba\x98\x76\x54\x32\x10\
    \x41\x49\xd2\xad\xed\x94\x56\x68\x1e\xc8\xb5\x11\xd9\xe7\xee\x04";

fn main(rt: HostRuntime) -> io::Result<()> {
    let (key, other_key) = KEYS.split_at(16);
    tags::in_one_call(&rt, key)?;
    tags::lost_blocks(&rt, key)?;
    sessions::making(&rt, &KEYS)?;
    sessions::checking(&rt, key)?;
    slips::read(&rt, key, other_key)?;
    slips::gathered(&rt, key)?;
    slips::forged(&rt, key)?;
    slips::written(&rt, key)?;
    masters::in_one_call(&rt, key, &KEYS)?;
    masters::in_a_session(&rt, key)?;
    masters::in_a_check(&rt, key)?;
    masters::slips(&rt, key, &KEYS)?;
    masters::lost_blocks(&rt, key)
}

fn agreement(algorithm: usize, padding: usize, m: usize, master: usize) -> Agreement {
    Agreement {
        algorithm,
        padding,
        m,
        master,
    }
}
