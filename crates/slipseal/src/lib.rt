// The library for C and for whatever calls C: each function hands its arguments on and turns the answer into numbers. What was agreed
// and a session cross as numbers and arrays; any content of them is answered, and a refusal hands back the very struct that came.
#![tactic(auto)]

ghost use Rattle.std.specs.Prelude.{◌≡◌};
ghost use Rattle.settings.specs.Answers.{told};
ghost use Rattle.tag.specs.OneCall.{make_of, check_of};
ghost use Rattle.tag.specs.Restore.{restore_of};
ghost use Rattle.session.specs.Calls.{stepped, start_of, start_check_of, piece_of, finish_of, finish_check_of};
ghost use Rattle.slip.specs.Slip.{reading, read_of};
ghost use Rattle.slip.specs.Gathering.{held, add_of};
ghost use Rattle.slip.specs.Printed.{writing, write_of};
ghost use Rattle.writing.specs.Writing.{said};
ghost use Rattle.slipseal.specs.Border.{agreed_of, agreed_back, told_of, told_make, told_restored, told_slip, told_written, told_write, phase_from, phase_number, part_number, purpose_from, purpose_number, inward, outward, handed_out, handed_back, finished_back};

use refusals::Refusal;
use session::{Phase, Purpose};
use settings::Outcome;

// master: 0 for no, any other number for yes; in a session 0 or 1.
#[repr(C)]
#[derive(Clone, Copy)]
pub struct Agreement {
    pub algorithm: usize,
    pub padding: usize,
    pub m: usize,
    pub master: usize,
}

// number: 0, or the refusal's. yes: 1 for a tag made and for a tag checked to be right, in one call or at a finish; else 0.
#[repr(C)]
#[derive(Clone, Copy, Default)]
pub struct Answer {
    pub number: usize,
    pub yes: usize,
    pub calls: usize,
}

// phase: 0 closed, 1 at a byte edge, 2 after a part byte, whose 1 to 7 bits are told by part. purpose: 0 making, 1 checking.
#[repr(C)]
#[derive(Clone, Copy)]
pub struct Session {
    pub phase: usize,
    pub part: usize,
    pub purpose: usize,
    pub agreement: Agreement,
    pub declared: usize,
    pub total: usize,
    pub keys: [u8; 32],
    pub chain: [u8; 16],
    pub held: [u8; 16],
    pub expected: [u8; 16],
}

// number: 0, or the refusal's. The lot is the lot_len bytes of the slip from lot_at on.
#[repr(C)]
#[derive(Clone, Copy, Default)]
pub struct Slip {
    pub number: usize,
    pub year: usize,
    pub month: usize,
    pub day: usize,
    pub amount: usize,
    pub calls: usize,
    pub lot_at: usize,
    pub lot_len: usize,
}

// number: 0, or the refusal's.
#[repr(C)]
#[derive(Clone, Copy, Default)]
pub struct Written {
    pub number: usize,
    pub length: usize,
    pub calls: usize,
}

#[repr(C)]
#[derive(Clone, Copy)]
pub struct Step {
    pub answer: Answer,
    pub session: Session,
}

// ---- what was agreed

impl From<Agreement> for settings::Agreement {
    ghost from_gives = { λ came agreement. agreement ≡ agreed_of came };

    #[tactic(auto, unfolding(crate::specs::Border::agreed_of))]
    fn from(came: Agreement) -> settings::Agreement {
        settings::Agreement {
            algorithm: came.algorithm,
            padding: came.padding,
            m: came.m,
            master: came.master != 0,
        }
    }
}

impl From<settings::Agreement> for Agreement {
    ghost from_gives = { λ agreement back. back ≡ agreed_back agreement };

    #[tactic(auto, unfolding(bits::specs::Choice::pick))]
    fn from(agreement: settings::Agreement) -> Agreement {
        Agreement {
            algorithm: agreement.algorithm,
            padding: agreement.padding,
            m: agreement.m,
            master: agreement.master.into(),
        }
    }
}

// ---- answers

impl From<Result<Outcome, Refusal>> for Answer {
    ghost from_gives = { λ answer out. out ≡ told_of (told answer) };

    #[tactic(auto, unfolding(crate::specs::Border::told_of, settings::specs::Answers::told, settings::specs::Answers::number_of, settings::specs::Answers::reported_calls))]
    fn from(answer: Result<Outcome, Refusal>) -> Answer {
        match answer {
            Ok(Outcome::Accepted) => Answer::default(),
            Ok(Outcome::Made(calls) | Outcome::Yes(calls)) => Answer {
                yes: 1,
                calls,
                ..Answer::default()
            },
            Ok(Outcome::No(calls)) => Answer {
                calls,
                ..Answer::default()
            },
            Err(refusal) => Answer {
                number: refusal.number(),
                ..Answer::default()
            },
        }
    }
}

#[tactic(auto, unfolding(crate::specs::Border::told_make))]
pub fn slipseal_make(
    agreement: Agreement,
    keys: &[u8],
    message: &[u8],
    bits: usize,
    room: &mut [u8],
) -> Answer
    ensures { (result, room.new) ≡ told_make (make_of (agreed_of agreement) keys.now message.now bits room.old) }
{
    tag::make(agreement.into(), keys, message, bits, room).into()
}

pub fn slipseal_check(
    agreement: Agreement,
    keys: &[u8],
    message: &[u8],
    bits: usize,
    offered: &[u8],
) -> Answer
    ensures { result ≡ told_of (check_of (agreed_of agreement) keys.now message.now bits offered.now) }
{
    tag::check(agreement.into(), keys, message, bits, offered).into()
}

#[tactic(auto, unfolding(crate::specs::Border::told_restored, tag::specs::Restore::restored_told, tag::specs::Restore::restored_number))]
pub fn slipseal_restore(
    agreement: Agreement,
    keys: &[u8],
    message: &mut [u8],
    bits: usize,
    block: usize,
    offered: &[u8],
) -> usize
    ensures { (result, message.new) ≡ told_restored (restore_of (agreed_of agreement) keys.now message.old bits block offered.now) }
{
    match tag::restore(agreement.into(), keys, message, bits, block, offered) {
        Ok(()) => 0,
        Err(refusal) => refusal.number(),
    }
}

// ---- a session in and out (docs/CHANGING.md names `phase_from`; of the other functions neither side is a type of this crate)

// A purpose or a master other than 0 and 1 closes the session, whatever its phase.
#[tactic(auto, unfolding(bits::specs::Choice::pick))]
fn phase_from(came: Session) -> Phase
    ensures { result ≡ phase_from came.phase came.part came.purpose came.agreement.master }
{
    if 1 < came.purpose || 1 < came.agreement.master {
        Phase::Closed
    } else {
        match (came.phase, came.part) {
            (1, 0) => Phase::Edge,
            (2, part) => Phase::Part(part),
            _ => Phase::Closed,
        }
    }
}

fn phase_numbers(phase: Phase) -> (usize, usize)
    ensures { result ≡ (phase_number phase, part_number phase) }
{
    match phase {
        Phase::Closed => (0, 0),
        Phase::Edge => (1, 0),
        Phase::Part(part) => (2, part),
    }
}

#[tactic(auto, unfolding(bits::specs::Choice::pick))]
fn purpose_from(purpose: usize) -> Purpose
    ensures { result ≡ purpose_from purpose }
{
    match purpose {
        1 => Purpose::Checking,
        _ => Purpose::Making,
    }
}

fn purpose_number(purpose: Purpose) -> usize
    ensures { result ≡ purpose_number purpose }
{
    match purpose {
        Purpose::Making => 0,
        Purpose::Checking => 1,
    }
}

impl From<Session> for session::Session {
    ghost from_gives = { λ came s. s ≡ inward came };

    #[tactic(auto, unfolding(crate::specs::Border::inward))]
    fn from(came: Session) -> session::Session {
        let Session {
            declared,
            total,
            keys,
            chain,
            held,
            expected,
            ..
        } = came;
        session::Session {
            phase: phase_from(came),
            purpose: purpose_from(came.purpose),
            agreement: came.agreement.into(),
            declared,
            total,
            keys,
            hold: chain::Hold { value: chain, held },
            expected,
        }
    }
}

impl From<session::Session> for Session {
    ghost from_gives = { λ s out. out ≡ outward s };

    fn from(s: session::Session) -> Session {
        let (phase, part) = phase_numbers(s.phase);
        let session::Session {
            declared,
            total,
            keys,
            hold: chain::Hold { value, held },
            expected,
            ..
        } = s;
        Session {
            phase,
            part,
            purpose: purpose_number(s.purpose),
            agreement: s.agreement.into(),
            declared,
            total,
            keys,
            chain: value,
            held,
            expected,
        }
    }
}

// The answer with the session handed on.
impl From<session::Step> for Step {
    ghost from_gives = { λ step out. out ≡ handed_out (stepped step) };

    #[tactic(auto, unfolding(crate::specs::Border::handed_out))]
    fn from(step: session::Step) -> Step {
        Step {
            answer: step.answer.into(),
            session: step.session.into(),
        }
    }
}

// The answer with the session handed on; in a refusal with the struct that came.
#[tactic(auto, unfolding(crate::specs::Border::handed_back, crate::specs::Border::handed_out, crate::specs::Border::told_of, bits::specs::Choice::pick, settings::specs::Answers::told, settings::specs::Answers::number_of))]
#[inline(always)]
fn handed_back(came: Session, step: session::Step) -> Step
    ensures { result ≡ handed_back came (stepped step) }
{
    match step.answer {
        Ok(_) => step.into(),
        Err(_) => Step {
            answer: step.answer.into(),
            session: came,
        },
    }
}

pub fn slipseal_start(agreement: Agreement, keys: &[u8], declared: usize) -> Step
    ensures { result ≡ handed_out (start_of (agreed_of agreement) keys.now declared) }
{
    session::start(agreement.into(), keys, declared).into()
}

pub fn slipseal_start_check(agreement: Agreement, keys: &[u8], declared: usize, tag: &[u8]) -> Step
    ensures { result ≡ handed_out (start_check_of (agreed_of agreement) keys.now declared tag.now) }
{
    session::start_check(agreement.into(), keys, declared, tag).into()
}

pub fn slipseal_piece(came: Session, bytes: &[u8], bits: usize) -> Step
    ensures { result ≡ handed_back came (piece_of (inward came) bytes.now bits) }
{
    handed_back(came, session::Session::from(came).piece(bytes, bits))
}

#[tactic(auto, unfolding(crate::specs::Border::finished_back))]
pub fn slipseal_finish(came: Session, room: &mut [u8]) -> Step
    ensures { (result, room.new) ≡ finished_back came (finish_of (inward came) room.old) }
{
    handed_back(came, session::Session::from(came).finish(room))
}

pub fn slipseal_finish_check(came: Session) -> Step
    ensures { result ≡ handed_back came (finish_check_of (inward came)) }
{
    handed_back(came, session::Session::from(came).finish_check())
}

// ---- a slip

impl From<Result<slip::Slip, Refusal>> for Slip {
    ghost from_gives = { λ read out. out ≡ told_slip (reading read) };

    #[tactic(auto, unfolding(crate::specs::Border::told_slip, slip::specs::Slip::reading, slip::specs::Slip::refused_slip))]
    fn from(read: Result<slip::Slip, Refusal>) -> Slip {
        match read {
            Ok(slip::Slip { calls, contents }) => Slip {
                number: 0,
                year: contents.date.year,
                month: contents.date.month,
                day: contents.date.day,
                amount: contents.amount,
                calls,
                lot_at: contents.lot_at,
                lot_len: contents.lot_len,
            },
            Err(refusal) => Slip {
                number: refusal.number(),
                ..Slip::default()
            },
        }
    }
}

impl From<Result<slip::Printed, Refusal>> for Written {
    ghost from_gives = { λ written out. out ≡ told_written (writing written) };

    #[tactic(auto, unfolding(slip::specs::Printed::writing, slip::specs::Printed::written_slip, slip::specs::Printed::unwritten_slip))]
    fn from(written: Result<slip::Printed, Refusal>) -> Written {
        match written {
            Ok(slip::Printed { length, calls }) => Written {
                number: 0,
                length,
                calls,
            },
            Err(refusal) => Written {
                number: refusal.number(),
                ..Written::default()
            },
        }
    }
}

pub fn slipseal_read(agreement: Agreement, keys: &[u8], slip: &[u8]) -> Slip
    ensures { result ≡ told_slip (read_of (agreed_of agreement) keys.now slip.now) }
{
    slip::read(agreement.into(), keys, slip).into()
}

pub fn slipseal_gather(came: slip::Gathered, bytes: &[u8]) -> slip::Gathered
    ensures { result ≡ add_of came bytes.now }
{
    came.add(bytes)
}

pub fn slipseal_read_gathered(agreement: Agreement, keys: &[u8], came: slip::Gathered) -> Slip
    ensures { result ≡ told_slip (read_of (agreed_of agreement) keys.now (held came)) }
{
    slipseal_read(agreement, keys, slip::held(&came.bytes, came.count))
}

#[tactic(auto, unfolding(crate::specs::Border::told_write))]
pub fn slipseal_write(
    agreement: Agreement,
    keys: &[u8],
    year: usize,
    month: usize,
    day: usize,
    lot: &[u8],
    amount: usize,
    room: &mut [u8],
) -> Written
    ensures { (result, room.new) ≡ told_write (write_of (agreed_of agreement) keys.now (said year month day lot.now amount) room.old) }
{
    let said = slip::Said {
        date: slip::Date { year, month, day },
        lot,
        amount,
    };
    slip::write(agreement.into(), keys, said, room).into()
}
