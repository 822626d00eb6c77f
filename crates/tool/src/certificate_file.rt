// The one certificate in a file, read once, from its first byte to its last, in whatever lengths the system delivers: every read is a
// piece of a session that checks its tag. Under padding 3 the session begins with the message's length, so the file is opened first and
// the system asked for its size, which a pipe does not tell. A file whose size is another while it is read gets the session's 12.
use crate::faults::{Attempt, Failure, Fault};
use crate::reads;
use crate::reads::Reads;
use crate::words::say;
use refusals::Refusal;
use session::{Session, Step};
use settings::{Agreement, Outcome};
use std::fs::Files;
use std::io::{Read, Seek, SeekFrom};

// So many reads are enough: each but the last brings a byte, and the session refuses the first byte over its limit.
const MOST_READS: u64 = 1048577;

pub(crate) fn check(
    rt: &(impl Files + Print),
    name: &[u8],
    agreement: Agreement,
    keys: &[u8],
    tag: &[u8],
) -> Result<(), Fault> {
    // a padding is the number that was agreed
    if agreement.padding == 3 {
        let mut file = reads::open(rt, name)?;
        say_answered(rt, judge_sized(rt, &mut file, agreement, keys, tag));
    } else {
        let begun = taken(session::start_check(agreement, keys, 0, tag))?;
        let mut file = reads::open(rt, name)?;
        say_answered(rt, judge(rt, &mut file, begun));
    }
    Ok(())
}

// Says why there is no answer, while the file is open.
fn say_answered(rt: &impl Print, answered: Result<(), Fault>) {
    if let Err(fault) = answered {
        say(rt, fault);
    }
}

// From the file's size to the answer.
fn judge_sized(
    rt: &impl Print,
    file: &mut (impl Read + Seek),
    agreement: Agreement,
    keys: &[u8],
    tag: &[u8],
) -> Result<(), Fault> {
    let bits = size(file)?.saturating_mul(8);
    let begun = taken(session::start_check(agreement, keys, bits, tag))?;
    judge(rt, file, begun)
}

// The session after a step that was not refused.
fn taken(step: Step) -> Result<Session, Refusal> {
    step.answer?;
    Ok(step.session)
}

// The file's size in bytes. A directory may tell one too, so it is asked beforehand for no bytes, which it refuses.
fn size(file: &mut (impl Read + Seek)) -> Result<usize, Failure> {
    let mut room = [0u8; 1];
    match file.read(&mut room[..0]) {
        Ok(_) => size_told(file).ok_or(Failure::NoSize),
        Err(error) => Err(Attempt::Read.failed(error).into()),
    }
}

// Where a file's end is, if that is told and the way back to its beginning does not fail.
fn size_told(file: &mut impl Seek) -> Option<usize> {
    let end = file.seek(SeekFrom::End(0)).ok()?;
    match file.seek(SeekFrom::Start(0)) {
        Ok(0) => usize::try_from(i64::try_from(end).ok()?).ok(),
        _ => None,
    }
}

// From the first read to the answer.
fn judge(rt: &impl Print, file: &mut impl Read, begun: Session) -> Result<(), Fault> {
    let mut s = begun;
    let reads = reads::each(
        Attempt::Read,
        file,
        &mut [0u8; 32768],
        MOST_READS,
        |bytes| {
            s = taken(s.piece(bytes, bytes.len().saturating_mul(8)))?;
            Ok(())
        },
    )?;
    match reads {
        Reads::All => say_judged(rt, s),
        // It does not come to this: so many reads bring too many bytes.
        Reads::Most => Err(Refusal::TooManyBits.into()),
    }
}

// The check is finished once, all of the file being in it.
fn say_judged(rt: &impl Print, s: Session) -> Result<(), Fault> {
    let bits = s.total;
    let (judged, calls) = match s.finish_check().answer? {
        Outcome::Yes(calls) => ("accepted\n", calls),
        Outcome::No(calls) => ("rejected: the tag is not this file's\n", calls),
        // No finish of a check comes to these.
        Outcome::Accepted | Outcome::Made(_) => return Ok(()),
    };
    say(
        rt,
        format_args!("{judged}bits: {bits}\ncipher calls: {calls}\n"),
    );
    Ok(())
}
