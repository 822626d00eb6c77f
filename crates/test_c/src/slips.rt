// A slip read, gathered and written, sealed under algorithm 5, padding 4 and 64 bits.
use crate::agreement;
use crate::printed::{Hex, Told};
use slip::Gathered;
use slipseal::Agreement;
use std::io;

const SLIP: [u8; 37] = *b"\
    \x01\x00\x0820261104\x02\x00\x02A7\x03\x00\x04\x00\x00\x01\xf4\
    \x7f\x00\x0b\x05\x04\x40\xa4\x7a\x92\x99\xc7\xb8\x45\x6c";

// The slip, junk to the 76th byte, and other junk in the four bytes that are no part of a slip.
const JUNK: [u8; 80] = *b"\
    \x01\x00\x0820261104\x02\x00\x02A7\x03\x00\x04\x00\x00\x01\xf4\
    \x7f\x00\x0b\x05\x04\x40\xa4\x7a\x92\x99\xc7\xb8\x45\x6c\
    \xcc\xcc\xcc\xcc\xcc\xcc\xcc\xcc\xcc\xcc\xcc\xcc\xcc\
    \xcc\xcc\xcc\xcc\xcc\xcc\xcc\xcc\xcc\xcc\xcc\xcc\xcc\
    \xcc\xcc\xcc\xcc\xcc\xcc\xcc\xcc\xcc\xcc\xcc\xcc\xcc\
    \xdd\xdd\xdd\xdd";

// Under what was agreed, under another key and under another m.
pub(crate) fn read(rt: &impl Print, key: &[u8], other_key: &[u8]) -> io::Result<()> {
    for (key, m) in [(key, 64), (other_key, 64), (key, 63)] {
        let answer = slipseal::slipseal_read(agreement(5, 4, m, 0), key, &SLIP);
        println!(rt; "read: {}", Told(answer))?;
    }
    Ok(())
}

// The slip in reads of 20 and of 17 bytes, then one byte more.
pub(crate) fn gathered(rt: &impl Print, key: &[u8]) -> io::Result<()> {
    let some = slipseal::slipseal_gather(Gathered::none(), &SLIP[..20]);
    let all = slipseal::slipseal_gather(some, &SLIP[20..]);
    let more = slipseal::slipseal_gather(all, b"7");
    for (what, came) in [
        ("the first read", some),
        ("both reads", all),
        ("one byte more", more),
    ] {
        read_gathered(rt, what, key, came)?;
    }
    Ok(())
}

// Records that no call handed out, read; and what comes back from a read of no bytes, its count and its bytes.
pub(crate) fn forged(rt: &impl Print, key: &[u8]) -> io::Result<()> {
    for count in [37, 1000] {
        let came = Gathered { count, bytes: JUNK };
        read_gathered(rt, "a record with junk", key, came)?;
        let after = slipseal::slipseal_gather(came, b"");
        println!(rt; "  {}", after.count)?;
        println!(rt; "{}", Hex(&after.bytes))?;
    }
    Ok(())
}

fn read_gathered(rt: &impl Print, what: &str, key: &[u8], came: Gathered) -> io::Result<()> {
    let answer = slipseal::slipseal_read_gathered(agreement(5, 4, 64, 0), key, came);
    println!(rt; "{what}: {}", Told(answer))
}

// The slip into a room of a byte more, and into one of a byte less.
pub(crate) fn written(rt: &impl Print, key: &[u8]) -> io::Result<()> {
    let agreed = agreement(5, 4, 64, 0);
    write::<38>(rt, agreed, key)?;
    write::<36>(rt, agreed, key)?;
    Ok(())
}

// The slip's fields, sealed under these keys, into a room of so many bytes; and the room.
pub(crate) fn write<const ROOM: usize>(
    rt: &impl Print,
    agreed: Agreement,
    keys: &[u8],
) -> io::Result<[u8; ROOM]> {
    let mut room = [0xEE; ROOM];
    let answer = slipseal::slipseal_write(agreed, keys, 2026, 11, 4, b"A7", 500, &mut room);
    println!(rt; "write: {}", Told(answer))?;
    println!(rt; "{}", Hex(&room))?;
    Ok(room)
}
