// Tags, sessions, slips and a lost block under a master, with padding 1.
use crate::printed::{Hex, Told};
use crate::sessions::{finish, finish_check, handed, piece};
use crate::tags::{FIRST_LOST, SECOND_LOST, restore};
use crate::{agreement, slips};
use slip::Gathered;
use slipseal::{Agreement, Session};
use std::io;

const MESSAGE: [u8; 32] = *b"This is the test message for mac";

// The G of it under algorithm 6, with the keys derived from the first of the keys (A.7).
const TAG: [u8; 16] = *b"\xb3\x8a\x96\x19\x5b\xaa\x61\xfc\xd7\x82\x05\x9f\x35\x9e\x6e\xd5";

// With 64 bits.
fn mastered(algorithm: usize, master: usize) -> Agreement {
    agreement(algorithm, 1, 64, master)
}

// A.7's data 1 under its master, told by each number; R8 of algorithm 4, where the second key is the master; and algorithm 3, which
// takes none.
pub(crate) fn in_one_call(rt: &impl Print, key: &[u8], keys: &[u8]) -> io::Result<()> {
    let calls = [
        ("master 0", mastered(6, 0), key),
        ("master 1", mastered(6, 1), key),
        ("master 2", mastered(6, 2), key),
        ("the largest master", mastered(6, usize::MAX), key),
        ("algorithm 4", mastered(4, 1), keys),
        ("algorithm 3", mastered(3, 1), keys),
    ];
    for (what, agreed, keys) in calls {
        let mut tag = [0xEE; 9];
        let made = slipseal::slipseal_make(agreed, keys, &MESSAGE, 256, &mut tag);
        println!(rt; "{what}: {}", Told(made))?;
        println!(rt; "{}", Hex(&tag))?;
        let check = slipseal::slipseal_check(agreed, keys, &MESSAGE, 256, &tag[..8]);
        println!(rt; "check: {}", Told(check))?;
    }
    Ok(())
}

// The tag of A.7's data 1 in a session, in which the struct comes with 2 and with the largest number for its master.
pub(crate) fn in_a_session(rt: &impl Print, key: &[u8]) -> io::Result<()> {
    let step = slipseal::slipseal_start(mastered(6, usize::MAX), key, 0);
    let begun = handed(rt, "start", step)?;
    kept(rt, begun)?;
    let all = piece(rt, begun, &MESSAGE, 256)?;
    let (two, last) = (with_master(all, 2), with_master(all, usize::MAX));
    let odd = handed(rt, "an odd master", slipseal::slipseal_piece(two, b"d", 8))?;
    kept(rt, odd)?;
    let odder = finish::<16>(rt, "an odd master", last)?;
    kept(rt, odder)?;
    finish_check(rt, two)?;
    finish::<16>(rt, "finish", all)?;
    Ok(())
}

// The same tag checked in a session.
pub(crate) fn in_a_check(rt: &impl Print, key: &[u8]) -> io::Result<()> {
    let step = slipseal::slipseal_start_check(mastered(6, 2), key, 0, &TAG[..8]);
    let begun = handed(rt, "start of a check", step)?;
    kept(rt, begun)?;
    let all = piece(rt, begun, &MESSAGE, 256)?;
    finish_check(rt, all)
}

fn with_master(s: Session, master: usize) -> Session {
    Session {
        agreement: Agreement {
            master,
            ..s.agreement
        },
        ..s
    }
}

// The master's number in the struct, and the keys.
fn kept(rt: &impl Print, s: Session) -> io::Result<()> {
    println!(rt; "  {}", s.agreement.master)?;
    println!(rt; "{}", Hex(&s.keys))
}

// The slip's fields, sealed under a master, and read with it and without.
pub(crate) fn slips(rt: &impl Print, key: &[u8], keys: &[u8]) -> io::Result<()> {
    for (algorithm, keys) in [(6, key), (4, keys)] {
        let agreed = mastered(algorithm, 1);
        let slip = slips::write::<37>(rt, agreed, keys)?;
        let read = slipseal::slipseal_read(agreed, keys, &slip);
        println!(rt; "read: {}", Told(read))?;
        let all = slipseal::slipseal_gather(Gathered::none(), &slip);
        let gathered = slipseal::slipseal_read_gathered(agreed, keys, all);
        println!(rt; "gathered: {}", Told(gathered))?;
        let without = slipseal::slipseal_read(mastered(algorithm, 0), keys, &slip);
        println!(rt; "without the master: {}", Told(without))?;
    }
    Ok(())
}

pub(crate) fn lost_blocks(rt: &impl Print, key: &[u8]) -> io::Result<()> {
    let full = agreement(6, 1, 128, 1);
    restore(rt, "block 0", full, key, FIRST_LOST, 256, 0, &TAG)?;
    restore(rt, "block 1", full, key, SECOND_LOST, 256, 1, &TAG)
}
