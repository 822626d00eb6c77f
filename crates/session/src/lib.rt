// A session: the message comes in pieces, and the record goes from call to call by value. At its end a tag is made, or the tag that was
// given at its start is checked. Each call judges the record and its own input anew, so any record is answered; the work is the heart
// of crate chain.
#![tactic(auto)]

ghost use Rattle.std.specs.Prelude.{◌≡◌, false, ◌+◌, ◌*◌, ◌%◌, ◌≤◌, ◌<◌, length};
ghost use Rattle.bits.specs.Choice.{first_of};
ghost use Rattle.bits.specs.Str.{bytes_bits};
ghost use Rattle.block.specs.Block.{storage, filled_block};
ghost use Rattle.cipher.specs.Ciphers.{cipher_at, table_at};
ghost use Rattle.mac.specs.Tag.{bits_of};
ghost use Rattle.keys.specs.Given.{key_bits, Unpacks};
ghost use Rattle.refusals.specs.Number.{number_in};
ghost use Rattle.settings.specs.Answers.{settings_of, told};
ghost use Rattle.message.specs.Faults.{too_few_blocks};
ghost use Rattle.chain.specs.Rounds.{rounds_bits, rounds_of};
ghost use Rattle.chain.specs.Chain.{held_bits};
ghost use Rattle.session.specs.Record.{cleared, phase_at, phase_unfit, settings_unsound, passes_declared, declared_too_long, stray_bit, counts_closed, unpacked_in, keys_in};
ghost use Rattle.session.specs.Calls.{stepped, accepted_step, finished_step, fresh_of, start_of, start_check_of, late_bits, piece_faults, fed_of, piece_of, falls_short, end_faults, tag_in, calls_in, finish_of, judged_of, finish_check_of};

use chain::{Hold, Keyed};
use keys::KeyBlocks;
use refusals::Refusal;
use settings::{Agreement, Outcome, Settings};

// Open at a byte edge, open after a part byte of 1 to 7 bits, or closed.
#[derive(Clone, Copy, PartialEq, Eq)]
pub enum Phase {
    Closed,
    Edge,
    Part(usize),
}

// What a session is for: its finish makes a tag, or says whether the expected one is right.
#[derive(Clone, Copy, PartialEq, Eq)]
pub enum Purpose {
    Making,
    Checking,
}

// What was agreed, the declared length, the bits so far, the keys as they were given, what the chain holds, and the tag that a check
// expects: as many of the bytes count as the agreed bits fill or begin.
#[derive(Clone, Copy, PartialEq, Eq)]
pub struct Session {
    pub phase: Phase,
    pub purpose: Purpose,
    pub agreement: Agreement,
    pub declared: usize,
    pub total: usize,
    pub keys: [u8; 32],
    pub hold: Hold,
    pub expected: [u8; 16],
}

// What a call answers, and the session it hands back.
#[derive(Clone, Copy)]
pub struct Step {
    pub answer: Result<Outcome, Refusal>,
    pub session: Session,
}

// ---- the record

const CLOSED: Session = Session {
    phase: Phase::Closed,
    purpose: Purpose::Making,
    agreement: Agreement {
        algorithm: 0,
        padding: 0,
        m: 0,
        master: false,
    },
    declared: 0,
    total: 0,
    keys: [0u8; 32],
    hold: Hold {
        value: [0u8; 16],
        held: [0u8; 16],
    },
    expected: [0u8; 16],
};

// What is inlined below spares a session's copies: a piece of 16 bytes was 1.1 times as long without.
impl Step {
    // What a start or a piece comes to: the session it makes; or its refusal, and the session that stays.
    #[tactic(auto, unfolding(settings::specs::Answers::told))]
    #[inline(always)]
    fn accepted(made: Result<Session, Refusal>, stays: Session) -> Step
        ensures { stepped result ≡ accepted_step made stays }
    {
        match made {
            Ok(session) => Step {
                answer: Ok(Outcome::Accepted),
                session,
            },
            Err(refusal) => Step {
                answer: Err(refusal),
                session: stays,
            },
        }
    }

    // What a finish comes to: its outcome, and the session is closed; or its refusal, and the session that stays.
    #[tactic(auto, unfolding(crate::specs::Record::cleared, settings::specs::Answers::told))]
    #[inline(always)]
    fn finished(answer: Result<Outcome, Refusal>, stays: Session) -> Step
        ensures { stepped result ≡ finished_step answer stays }
    {
        let session = match answer {
            Ok(_) => CLOSED,
            Err(_) => stays,
        };
        Step { answer, session }
    }
}

#[tactic(auto, unfolding(crate::specs::Record::phase_at, bits::specs::Choice::pick))]
fn phase_at(total: usize) -> Phase
    ensures { result ≡ phase_at total }
{
    match total % 8 {
        0 => Phase::Edge,
        part => Phase::Part(part),
    }
}

// A padding is its number, here and below: a record may hold any.
fn declared_too_long(padding: usize, declared: usize) -> bool
    ensures { result ≡ declared_too_long padding declared }
{
    padding == 3 && message::too_many_bits(declared)
}

impl Session {
    fn phase_unfit(self) -> bool
        ensures { result ≡ phase_unfit self.phase self.total }
    {
        self.phase != phase_at(self.total)
    }

    fn stray_bit(self) -> bool
        ensures { result ≡ stray_bit (held_bits (cipher_at 1).n self.total) (bytes_bits self.hold.held) }
    {
        let waits = chain::held_bits(cipher::SM4, self.total);
        !block::equal(block::leftmost(self.hold.held, waits), self.hold.held)
    }

    // Whether so many bits more pass the declared length, with no sum that could wrap.
    fn passes_declared(self, bits: usize) -> bool
        ensures { result ≡ passes_declared self.agreement.padding self.declared (self.total + bits) }
    {
        self.agreement.padding == 3
            && (self.declared < self.total || self.declared - self.total < bits)
    }

    fn falls_short(self) -> bool
        ensures { result ≡ falls_short self.agreement.padding self.declared self.total }
    {
        self.agreement.padding == 3 && self.total < self.declared
    }

    fn late_bits(self, bits: usize) -> bool
        ensures { result ≡ late_bits self.total bits }
    {
        bits != 0 && self.total % 8 != 0
    }
}

// What the heart works under: SM4, the settings of an agreement, and the round keys of keys in use.
fn keyed<'a>(t: &'a cipher::Table, agreement: Agreement, keys: KeyBlocks) -> Keyed<'a>
    requires { t.now ≡ table_at 1 }
    ensures cipher { result.cipher ≡ 1 }
    ensures settings { result.settings ≡ settings_of agreement }
    ensures rounds { rounds_bits result.rounds ≡ rounds_of 1 agreement.algorithm (key_bits keys) }
{
    Keyed::new(t, cipher::SM4, Settings::of(agreement), keys)
}

// ---- start

fn fresh(agreement: Agreement, given: [u8; 32], keys: KeyBlocks, declared: usize) -> Session
    requires { declared ≤ 8388608 }
    ensures { result ≡ fresh_of agreement given (key_bits keys) declared }
{
    let t = cipher::table(cipher::SM4);
    let k = keyed(&t, agreement, keys);
    Session {
        phase: Phase::Edge,
        purpose: Purpose::Making,
        agreement,
        declared,
        total: 0,
        keys: given,
        hold: chain::begin(&k, declared as u32),
        expected: [0u8; 16],
    }
}

#[tactic(auto, using(crate::proofs::Answers::starting), unfolding(crate::specs::Calls::start_of, crate::specs::Calls::started_by, crate::specs::Calls::refused_start, crate::specs::Calls::declared_at, refusals::specs::Number::number_in, bits::specs::Choice::pick))]
fn begin(agreement: Agreement, keys: &[u8], declared: usize) -> Result<Session, Refusal>
    ensures { accepted_step result cleared ≡ start_of agreement keys.now declared }
{
    let used = settings::unpack(agreement, keys).keys;
    settings::refusal(agreement, keys.len(), used)?;
    if declared_too_long(agreement.padding, declared) {
        return Err(Refusal::TooManyBits);
    }
    let kept = if agreement.padding == 3 { declared } else { 0 };
    Ok(fresh(agreement, keys::kept(keys), used, kept))
}

#[tactic(auto, using(crate::proofs::Answers::starting), unfolding(crate::specs::Calls::start_of, crate::specs::Calls::started_by, crate::specs::Calls::start_check_of, crate::specs::Calls::fresh_check_of, crate::specs::Calls::refused_start, crate::specs::Record::aimed, refusals::specs::Number::number_in, bits::specs::Choice::pick))]
fn begin_check(
    agreement: Agreement,
    keys: &[u8],
    declared: usize,
    tag: &[u8],
) -> Result<Session, Refusal>
    ensures { accepted_step result cleared ≡ start_check_of agreement keys.now declared tag.now }
{
    let session = begin(agreement, keys, declared)?;
    if message::tag_length_wrong(agreement.m, tag.len()) {
        return Err(Refusal::TagBytes);
    }
    Ok(Session {
        purpose: Purpose::Checking,
        expected: block::front(tag),
        ..session
    })
}

// A session begins; declared is the message's bit length, read with padding 3 only. A refusal comes with a closed record.
#[tactic(auto, unfolding(crate::specs::Record::cleared))]
pub fn start(agreement: Agreement, keys: &[u8], declared: usize) -> Step
    ensures { stepped result ≡ start_of agreement keys.now declared }
{
    Step::accepted(begin(agreement, keys, declared), CLOSED)
}

// A session begins at whose end this tag is checked; its bytes are kept as they were given.
#[tactic(auto, unfolding(crate::specs::Record::cleared))]
pub fn start_check(agreement: Agreement, keys: &[u8], declared: usize, tag: &[u8]) -> Step
    ensures { stepped result ≡ start_check_of agreement keys.now declared tag.now }
{
    Step::accepted(begin_check(agreement, keys, declared, tag), CLOSED)
}

// ---- a session in a call

// A session with its keys in use: each call unpacks them once, for the record keeps the bytes as they were given.
#[derive(Clone, Copy)]
struct WithKeys {
    session: Session,
    unpacked: keys::Unpacked,
    ghost own: { Unpacks unpacked (unpacked_in session) },
}

impl WithKeys {
    #[inline(always)]
    fn of(session: Session) -> WithKeys
        ensures { result.session ≡ session }
    {
        WithKeys {
            session,
            unpacked: settings::unpack(session.agreement, &session.keys),
        }
    }

    fn settings_unsound(&self) -> bool
        ensures { result ≡ settings_unsound self.now.session.agreement (keys_in self.now.session) }
    {
        let agreement = self.session.agreement;
        let needed = keys::bytes_of(agreement.master, agreement.algorithm);
        settings::refusal(agreement, needed, self.unpacked.keys).is_err()
    }

    // Whether the record counts as closed, for whatever purpose and with whatever tag expected.
    fn counts_closed(&self) -> bool
        ensures { result ≡ counts_closed self.now.session }
    {
        let s = self.session;
        bits::first_fault(&[
            (s.phase_unfit(), Refusal::Closed),
            (self.settings_unsound(), Refusal::Closed),
            (message::too_many_bits(s.total), Refusal::Closed),
            (
                declared_too_long(s.agreement.padding, s.declared),
                Refusal::Closed,
            ),
            (s.passes_declared(0), Refusal::Closed),
            (s.stray_bit(), Refusal::Closed),
        ])
        .is_err()
    }

    fn piece_refusal(&self, length: usize, bits: usize) -> Result<(), Refusal>
        ensures { number_in result ≡ first_of (piece_faults self.now.session length bits) }
    {
        let s = self.session;
        bits::first_fault(&[
            (self.counts_closed(), Refusal::Closed),
            (s.late_bits(bits), Refusal::Closed),
            (message::length_wrong(length, bits), Refusal::MessageBytes),
            (message::too_many_more(s.total, bits), Refusal::TooManyBits),
            (s.passes_declared(bits), Refusal::DeclaredLength),
        ])
    }

    // The bits of a piece go into an open session.
    fn fed(&self, bytes: &[u8], bits: usize) -> Session
        requires { (bits ≤ 8 * length bytes.now) × (0 < bits → self.now.session.total % 8 ≡ 0) × (self.now.session.total + bits ≤ 8388608) }
        ensures { result ≡ fed_of self.now.session (bits_of bytes.now bits) }
    {
        let s = self.session;
        let t = cipher::table(cipher::SM4);
        let k = keyed(&t, s.agreement, self.unpacked.keys);
        let total = s.total + bits;
        Session {
            phase: phase_at(total),
            total,
            hold: chain::feed(&k, s.hold, s.total, bytes, bits),
            ..s
        }
    }

    // The first refusal of a finish; told are whether its purpose is not the session's, and fault 10.
    fn finish_refusal(&self, other: bool, ten: bool) -> Result<(), Refusal>
        ensures { number_in result ≡ first_of (end_faults self.now.session other ten) }
    {
        let s = self.session;
        bits::first_fault(&[
            (self.counts_closed(), Refusal::Closed),
            (other, Refusal::Closed),
            (s.falls_short(), Refusal::DeclaredLength),
            (
                message::too_few_blocks(Settings::of(s.agreement), s.total),
                Refusal::TooFewBlocks,
            ),
            (ten, Refusal::TagBytes),
        ])
    }

    // The tag of an open session, and zeros after it.
    fn tag_block(&self) -> [u8; 16]
        ensures { bytes_bits result ≡ filled_block (tag_in self.now.session) }
    {
        let s = self.session;
        let t = cipher::table(cipher::SM4);
        let k = keyed(&t, s.agreement, self.unpacked.keys);
        chain::close(&k, s.hold, s.total)
    }

    // All calls of the session, start included.
    fn calls(&self) -> usize
        requires { too_few_blocks (settings_of self.now.session.agreement) self.now.session.total ≡ false }
        ensures { result ≡ calls_in self.now.session }
    {
        let s = self.session;
        let named = Settings::of(s.agreement);
        chain::calls(cipher::SM4, named, self.unpacked.calls, s.total)
    }
}

impl Session {
    #[tactic(auto, using(crate::proofs::Answers::judging), unfolding(crate::specs::Calls::piece_of, refusals::specs::Number::number_in, bits::specs::Choice::pick))]
    #[inline(always)]
    fn take(self, bytes: &[u8], bits: usize) -> Result<Session, Refusal>
        ensures { accepted_step result self ≡ piece_of self bytes.now bits }
    {
        let with_keys = WithKeys::of(self);
        with_keys.piece_refusal(bytes.len(), bits)?;
        Ok(with_keys.fed(bytes, bits))
    }

    #[tactic(auto, using(crate::proofs::Answers::judging), unfolding(crate::specs::Calls::finish_of, crate::specs::Calls::finish_faults, crate::specs::Record::is_check, mac::specs::Tag::bytes_for, refusals::specs::Number::number_in, bits::specs::Choice::pick))]
    #[inline(always)]
    fn make(self, room: &mut [u8]) -> Result<Outcome, Refusal>
        ensures { (finished_step result self, room.new) ≡ finish_of self room.old }
    {
        let with_keys = WithKeys::of(self);
        let m = self.agreement.m;
        with_keys.finish_refusal(
            self.purpose == Purpose::Checking,
            message::room_short(m, room.len()),
        )?;
        block::put(with_keys.tag_block(), message::bytes_for(m), room);
        Ok(Outcome::Made(with_keys.calls()))
    }

    // Every byte of the expected tag is looked at.
    #[tactic(auto, using(crate::proofs::Answers::judging), unfolding(crate::specs::Calls::finish_check_of, crate::specs::Calls::finish_check_faults, crate::specs::Record::is_check, mac::specs::Tag::bytes_for, refusals::specs::Number::number_in, bits::specs::Choice::pick))]
    #[inline(always)]
    fn judge(self) -> Result<Outcome, Refusal>
        ensures { finished_step result self ≡ finish_check_of self }
    {
        let with_keys = WithKeys::of(self);
        with_keys.finish_refusal(self.purpose != Purpose::Checking, false)?;
        let tag = with_keys.tag_block();
        let calls = with_keys.calls();
        let n = message::bytes_for(self.agreement.m);
        Ok(if block::equal_bytes(&self.expected[..n], &tag[..n]) {
            Outcome::Yes(calls)
        } else {
            Outcome::No(calls)
        })
    }

    // More bits of the message: the first bits of the bytes. A refused piece leaves the session as it was.
    pub fn piece(self, bytes: &[u8], bits: usize) -> Step
        ensures { stepped result ≡ piece_of self bytes.now bits }
    {
        Step::accepted(self.take(bytes, bits), self)
    }

    // The end of the message: its tag goes into the first bytes of the room, and the session is closed. A refused finish leaves both
    // as they were.
    pub fn finish(self, room: &mut [u8]) -> Step
        ensures { (stepped result, room.new) ≡ finish_of self room.old }
    {
        Step::finished(self.make(room), self)
    }

    // The end of the message of a check: yes or no, and the session is closed. A refused finish leaves it as it was.
    pub fn finish_check(self) -> Step
        ensures { stepped result ≡ finish_check_of self }
    {
        Step::finished(self.judge(), self)
    }
}
