// Commands in stored texts, one a line, each printed with its answer: LINE -> ANSWER. The texts are the files that the arguments
// name. Their stored answers come from the standard or from the reference, never from this program (tests/make-runs).
//
//     make A P M KEYS MESSAGE BITS ROOM   made CALLS calls and the room's bytes; or refused N, and whether the room is untouched
//     check A P M KEYS MESSAGE BITS TAG   yes CALLS calls, no CALLS calls, or refused N
//     restore A P M KEYS MESSAGE BITS BLOCK TAG   filled and the message's bytes, then as check for this message; or refused N, and
//                                         whether the message is untouched
//     over A P M KEYS BITS BLOCK TAG      the same for 1,048,577 zero bytes, one more than the longest message has
//     start A P M KEYS DECLARED           accepted or refused N
//     piece BYTES BITS                    accepted or refused N
//     zeros BYTES PIECES                  so many pieces of so many zero bytes: the last one's answer
//     finish ROOM                         as make
//     forge PHASE PART A P M DECLARED TOTAL K K1 CHAIN HELD   forged: the session is now this record
//     same                                whether the command on the session before this one left every field of it: same or changed
//     halves A P M KEYS MESSAGE CALLS TAG   G of N cuts: of the N ways to cut the message in two at a byte, G end with the tag and the calls
//     start_check A P M KEYS DECLARED TAG   accepted or refused N
//     finish_check                        as check
//     aim PURPOSE EXPECTED                aimed: the session's record is now for this purpose and expects these bytes, at most 16,
//                                         zeros after them; a forged record is for making and expects zeros
//     bytewise A P M KEYS MESSAGE BITS TAG   as check, by a session that is fed byte by byte, the last one with the bits left; then
//                                         G of N turned: no, where of the N tags with one bit turned G get no with the same calls;
//                                         then message turned, and the answer for the message with its first bit turned
//     slip A P M KEYS SLIP                accepted DATE lot LOT at PLACE length BYTES amount AMOUNT calls CALLS, LOT being the part that
//                                         comes back; or refused N, and "with values" where another field or the part is not empty
//     changed A P M KEYS SLIP             the slip with each byte changed to every other value: how many are accepted, and how many get
//                                         which refusal (31: one with values)
//     prefixes A P M KEYS SLIP            the same for every beginning that is shorter than the slip
//     firsts A P M KEYS SLIP              each beginning of the slip, none and the whole included, is gathered as the first read:
//                                         the same counts for it alone, and with the rest as the second read (31 also where the
//                                         record, the answer or the lot is not that of these bytes in one piece)
//     trickled A P M KEYS SLIP SIZE       as slip, gathered from reads of SIZE bytes, 1 to 4096, each after a read of no bytes
//     record A P M KEYS COUNT BYTES READ  a record of this count and of these bytes, at most 80, zeros after them: as slip, alone
//                                         and with the read; then its count and bytes with the read
//     write A P M KEYS YEAR MONTH DAY LOT AMOUNT ROOM   written LENGTH bytes CALLS calls and the room's bytes; or refused N, "with values"
//                                         where length or calls are not 0, and whether the room is untouched
//
// Numbers are decimal and below 2^64. M may end in *, as 64*: a master is in use. Bytes are hex digits, and - is no bytes. ROOM is a
// number of bytes, each EE before the call. A refusal's other fields are asked as C is handed them (slipseal). The commands from start
// to same, start_check, finish_check and aim act on one session, closed and zero at the text's first line, and print its phase after their
// answer; PHASE is 0 closed, 1 at a byte edge, 2 after a part byte of PART bits, and PURPOSE 0 making, 1 checking. A line whose
// first word is # is printed alone. Any other line is an error, which ends the run: tests/make-runs stores none that the reference
// cannot read.
#![tactic(auto)]

mod bytewise;
mod calls;
mod changes;
mod gathered;
mod halves;
mod lost;
mod printed;
mod sessions;
mod slips;
mod supplier;
mod words;
mod writes;

use anyhow::{Result, bail};
use sessions::State;
use std::rt::Files;
use std::{env, fs};
use words::Words;

fn main(rt: HostRuntime) -> Result<()> {
    for name in env::args(&rt)?.skip(1) {
        text(&rt, &name)?;
    }
    Ok(())
}

// The text that an argument names.
fn text(rt: &(impl Files + AllocGlobal + Print), name: &str) -> Result<()> {
    let text = fs::read_to_string(rt, name)?;
    let mut state = State::closed();
    for line in text.lines() {
        print!(rt; "{line}")?;
        answer(rt, Words::of(rt.alloc(), line), &mut state)?;
        println!(rt)?;
    }
    Ok(())
}

fn answer(rt: &impl Print, mut words: Words, state: &mut State) -> Result<()> {
    let command = words.word()?;
    if command == "#" {
        return Ok(());
    }
    print!(rt; " -> ")?;
    match command {
        "make" => calls::make(rt, words),
        "check" => calls::check(rt, words),
        "halves" => halves::halves(rt, words),
        "bytewise" => bytewise::bytewise(rt, words),
        "restore" => lost::restore(rt, words),
        "over" => lost::over(rt, words),
        "slip" => slips::slip(rt, words),
        "changed" => slips::changed(rt, words),
        "prefixes" => slips::prefixes(rt, words),
        "firsts" => gathered::firsts(rt, words),
        "trickled" => gathered::trickled(rt, words),
        "record" => gathered::record(rt, words),
        "write" => writes::write(rt, words),
        "same" => state.tell(rt),
        "start" => state.start(rt, words),
        "start_check" => state.start_check(rt, words),
        "piece" => state.piece(rt, words),
        "zeros" => state.zeros(rt, words),
        "finish" => state.finish(rt, words),
        "finish_check" => state.finish_check(rt),
        "forge" => state.forge(rt, words),
        "aim" => state.aim(rt, words),
        _ => bail!("no such command"),
    }
}
