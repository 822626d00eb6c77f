// Tags made and checked, and lost blocks restored, in one call.
use crate::agreement;
use crate::printed::{Hex, Told};
use slipseal::Agreement;
use std::io;

// The message of A.1, with one of its two blocks lost, and the G of it under algorithm 1 and padding 1.
pub(crate) const FIRST_LOST: [u8; 32] = *b"???????????????? message for mac";

pub(crate) const SECOND_LOST: [u8; 32] = *b"This is the test????????????????";

const TAG: [u8; 16] = *b"\x16\xe0\x29\x04\xef\xb7\x65\xb7\x06\x45\x9c\x9e\xda\xbd\xb5\x19";

const FALSE_TAG: [u8; 16] = [0xEE; 16];

// 128 times as much is 2^64.
const FAR: usize = 1 << 57;

pub(crate) fn in_one_call(rt: &impl Print, key: &[u8]) -> io::Result<()> {
    let agreed = agreement(1, 1, 64, 0);
    let mut tag = [0xEE; 9];
    let made = slipseal::slipseal_make(agreed, key, b"abc", 24, &mut tag);
    println!(rt; "make: {}", Told(made))?;
    println!(rt; "{}", Hex(&tag))?;
    let checks = [
        ("check", b"abc", &tag[..8]),
        ("another message", b"abd", &tag[..8]),
        ("nine bytes", b"abc", &tag),
    ];
    for (what, message, offered) in checks {
        let answer = slipseal::slipseal_check(agreed, key, message, 24, offered);
        println!(rt; "{what}: {}", Told(answer))?;
    }
    Ok(())
}

// Each block of the message restored; the first worked out of a false tag; and what is refused.
pub(crate) fn lost_blocks(rt: &impl Print, key: &[u8]) -> io::Result<()> {
    let full = agreement(1, 1, 128, 0);
    let half = agreement(1, 1, 64, 0);
    let seven = agreement(7, 4, 128, 0);
    let losses = [
        ("block 0", full, FIRST_LOST, 256, 0, &TAG[..]),
        ("block 1", full, SECOND_LOST, 256, 1, &TAG),
        ("a false tag", full, FIRST_LOST, 256, 0, &FALSE_TAG),
        ("block 2", full, SECOND_LOST, 256, 2, &TAG),
        ("a part block", full, SECOND_LOST, 255, 1, &TAG),
        ("block 2^57", full, FIRST_LOST, 256, FAR, &TAG),
        ("the last number", full, FIRST_LOST, 256, usize::MAX, &TAG),
        ("15 bytes", full, FIRST_LOST, 256, 2, &TAG[..15]),
        ("64 bits", half, FIRST_LOST, 256, 0, &TAG[..8]),
        ("algorithm 7", seven, FIRST_LOST, 256, 0, &TAG),
    ];
    for (what, agreed, message, bits, block, tag) in losses {
        restore(rt, what, agreed, key, message, bits, block, tag)?;
    }
    Ok(())
}

// The answer, the message after it, and what a check then says.
pub(crate) fn restore(
    rt: &impl Print,
    what: &str,
    agreed: Agreement,
    key: &[u8],
    mut message: [u8; 32],
    bits: usize,
    block: usize,
    tag: &[u8],
) -> io::Result<()> {
    let answer = slipseal::slipseal_restore(agreed, key, &mut message, bits, block, tag);
    println!(rt; "{what}: {answer}")?;
    println!(rt; "{}", Hex(&message))?;
    let check = slipseal::slipseal_check(agreed, key, &message, bits, tag);
    println!(rt; "check: {}", Told(check))
}
