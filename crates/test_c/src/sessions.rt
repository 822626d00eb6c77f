// Tags made and checked in sessions.
ghost use Rattle.std.specs.Prelude.{◌≤◌};

use crate::agreement;
use crate::printed::{Hex, Told};
use slipseal::{Session, Step};
use std::io;

pub(crate) fn making(rt: &impl Print, keys: &[u8]) -> io::Result<()> {
    let agreed = agreement(4, 2, 128, 0);
    let ones = [0xFF; 16];
    let begun = handed(rt, "start", slipseal::slipseal_start(agreed, keys, 0))?;
    let some = piece(rt, begun, &ones[..15], 120)?;
    let early = finish::<16>(rt, "finish, one block", some)?;
    let all = piece(rt, early, &ones[15..], 8)?;
    let short = finish::<15>(rt, "finish, little room", all)?;
    finish_check(rt, short)?;
    let odd = Session { phase: 7, ..short };
    handed(
        rt,
        "an odd phase",
        slipseal::slipseal_piece(odd, &ones[15..], 8),
    )?;
    finish::<16>(rt, "finish", short)?;
    Ok(())
}

// The tag of abc is 905, then four spare bits.
pub(crate) fn checking(rt: &impl Print, key: &[u8]) -> io::Result<()> {
    let right = fed_check(rt, key, b"\x90\x50")?;
    let tried = finish::<16>(rt, "finish", right)?;
    let odd = Session {
        purpose: 2,
        ..tried
    };
    handed(rt, "an odd purpose", slipseal::slipseal_piece(odd, b"d", 8))?;
    finish::<16>(rt, "an odd purpose", odd)?;
    finish_check(rt, odd)?;
    finish_check(rt, tried)?;
    let wrong = fed_check(rt, key, b"\x90\x51")?;
    finish_check(rt, wrong)?;
    fed_check(rt, key, b"\x90")?;
    Ok(())
}

// A check of this tag, of twelve bits, with one byte of the message and then two, and the tag in the struct.
fn fed_check(rt: &impl Print, key: &[u8], tag: &[u8]) -> io::Result<Session> {
    let agreed = agreement(1, 1, 12, 0);
    let step = slipseal::slipseal_start_check(agreed, key, 0, tag);
    let begun = handed(rt, "start of a check", step)?;
    let some = piece(rt, begun, b"a", 8)?;
    let all = piece(rt, some, b"bc", 16)?;
    println!(rt; "{}", Hex(&all.expected))?;
    Ok(all)
}

// ---- one call

// The answer and the struct's phase, part, purpose and total; and the struct.
pub(crate) fn handed(rt: &impl Print, what: &str, step: Step) -> io::Result<Session> {
    println!(rt; "{what}: {}", Told(step.answer))?;
    println!(rt; "  {}", Told(step.session))?;
    Ok(step.session)
}

pub(crate) fn piece(rt: &impl Print, s: Session, bytes: &[u8], bits: usize) -> io::Result<Session> {
    handed(rt, "piece", slipseal::slipseal_piece(s, bytes, bits))
}

// A finish with so many bytes of room, and the room.
pub(crate) fn finish<const ROOM: usize>(
    rt: &impl Print,
    what: &str,
    s: Session,
) -> io::Result<Session>
    requires { ROOM ≤ 16 }
{
    let mut room = [0xEE; ROOM];
    let after = handed(rt, what, slipseal::slipseal_finish(s, &mut room))?;
    println!(rt; "{}", Hex(&room))?;
    Ok(after)
}

pub(crate) fn finish_check(rt: &impl Print, s: Session) -> io::Result<()> {
    handed(rt, "finish of a check", slipseal::slipseal_finish_check(s))?;
    Ok(())
}
