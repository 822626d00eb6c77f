// A lot slip, read whole under what was agreed and the caller's keys: believed, or refused. Where its fields stand is found once. What
// the slip names is compared with the agreement and used for nothing else: the seal is checked under the agreement. A slip that comes in
// odd lengths is gathered first, and read once. And a lot slip written: nothing is put into the room before the last test.
#![tactic(auto)]

ghost use Rattle.std.specs.Prelude.{◌≡◌, false, [], ◌++◌, ◌+◌, ◌≤◌, ◌<◌, length, take, drop};
ghost use Rattle.bits.specs.Choice.{first_of};
ghost use Rattle.fields.specs.Layout.{places_of, seal_field, covered, layout_faults};
ghost use Rattle.slip.specs.Slip.{agreement_unmet, contents_of, read_of, reading};
ghost use Rattle.slip.specs.Part.{seen, lot_part, lot_part_in, first_part};
ghost use Rattle.slip.specs.Gathering.{held, held_part, gathered_of, add_of};
ghost use Rattle.mac.specs.Tag.{bytes_for};
ghost use Rattle.writing.specs.Writing.{says};
ghost use Rattle.slip.specs.Printed.{sealed_by, seal_head, put_of, write_under, write_of, writing};

pub use fields::Date;
use fields::Places;
use refusals::Refusal;
use settings::{Agreement, Outcome};
use writing::Covered;
pub use writing::Said;

// What a slip says: its expiry, its amount in microlitres, and where in the slip its lot lies (two numbers, for `lot_in` answers any).
#[derive(Clone, Copy, PartialEq, Eq)]
pub struct Contents {
    pub date: Date,
    pub amount: usize,
    pub lot_at: usize,
    pub lot_len: usize,
}

// What is read from a slip that is accepted: the cipher calls of its check, and what it says.
#[derive(Clone, Copy, PartialEq, Eq)]
pub struct Slip {
    pub calls: usize,
    pub contents: Contents,
}

// What a slip without a fault in its fields says. (The slip and where its fields stand go together through two functions; a struct of
// both would be made for one call.)
#[tactic(auto, using(crate::proofs::Judged::placing), unfolding(crate::specs::Slip::contents_of, fields::specs::Layout::places_of, fields::specs::Layout::lot_field, fields::specs::Layout::amount_field))]
fn contents_of(slip: &[u8], at: Places) -> Contents
    requires { (at ≡ places_of slip.now) × (first_of (layout_faults slip.now) ≡ 0) }
    ensures { result ≡ contents_of slip.now }
{
    Contents {
        date: Date::read(slip),
        amount: fields::amount(&slip[at.amount..]),
        lot_at: at.lot + 3,
        lot_len: fields::lot_length(&slip[at.lot..]),
    }
}

// Whether a seal field names another algorithm, padding or m than agreed.
#[tactic(auto, unfolding(crate::specs::Slip::agreement_unmet, crate::specs::Slip::named_values, bits::specs::Str::same_row))]
fn agreement_unmet(agreement: Agreement, field: &[u8]) -> bool
    ensures { result ≡ agreement_unmet agreement field.now }
{
    fields::byte_at(field, 3) != agreement.algorithm
        || fields::byte_at(field, 4) != agreement.padding
        || fields::byte_at(field, 5) != agreement.m
}

// A slip that has no fault in its fields and names what was agreed, by its seal.
#[tactic(auto, using(crate::proofs::Judged::placing))]
fn read_under(agreed: Agreement, keys: &[u8], slip: &[u8], at: Places) -> Result<Slip, Refusal>
    requires { (at ≡ places_of slip.now) × (first_of (layout_faults slip.now) ≡ 0) × (agreement_unmet agreed (seal_field slip.now) ≡ false) }
    ensures { reading result ≡ read_of agreed keys.now slip.now }
{
    let seal = at.seal;
    let tag_at = seal + 6;
    match tag::check(agreed, keys, &slip[..seal], 8 * seal, &slip[tag_at..])? {
        Outcome::Yes(calls) => Ok(Slip {
            calls,
            contents: contents_of(slip, at),
        }),
        _ => Err(Refusal::Seal),
    }
}

// Reads a slip under what was agreed and keys.
#[tactic(auto, using(crate::proofs::Judged::laying))]
pub fn read(agreement: Agreement, keys: &[u8], slip: &[u8]) -> Result<Slip, Refusal>
    ensures { reading result ≡ read_of agreement keys.now slip.now }
{
    let layout = fields::laid_out(slip);
    layout.judged?;
    let at = layout.places;
    if agreement_unmet(agreement, &slip[at.seal..]) {
        return Err(Refusal::NotAsAgreed);
    }
    read_under(agreement, keys, slip, at)
}

// The lot of a slip that was read already, as that very part of it; the slip's first zero bytes where it does not lie in the slip.
#[tactic(auto, unfolding(crate::specs::Part::lot_part_in, bits::specs::Choice::pick))]
pub fn lot_in<'a>(slip: &'a [u8], contents: Contents) -> &'a [u8]
    ensures { seen result ≡ lot_part_in slip.entry contents }
{
    // no `get`: its contract leaves open where in memory the part lies
    let at = contents.lot_at;
    match at.checked_add(contents.lot_len) {
        Some(end) if end <= slip.len() => &slip[at..end],
        _ => &slip[..0],
    }
}

// The lot of an accepted slip as that very part of it; the slip's first zero bytes where it is refused.
pub fn lot<'a>(agreement: Agreement, keys: &[u8], slip: &'a [u8]) -> &'a [u8]
    ensures { seen result ≡ lot_part slip.entry (read_of agreement keys.now slip.now).contents }
{
    match read(agreement, keys, slip) {
        Ok(read) => lot_in(slip, read.contents),
        Err(_) => &slip[..0],
    }
}

// ---- gathered

// The bytes of a slip that came so far, and zeros after them. Only the first 76 can matter, so no more are kept; the last four places
// stay zero and are not read (they end the struct in C), and a count over 76 is read as 76. A record of zeros is empty. It crosses to C
// as it stands, so the count is a field of its own beside the bytes.
#[repr(C)]
#[derive(Clone, Copy)]
pub struct Gathered {
    pub count: usize,
    pub bytes: [u8; 80],
}

// So many bytes are kept: a slip has 75 at most, and one more tells that it is longer.
const MOST_KEPT: usize = 76;

// The first so many bytes, or all where there are fewer.
fn first(s: &[u8], count: usize) -> &[u8]
    ensures { seen result ≡ first_part s.entry count }
{
    &s[..count.min(s.len())]
}

// The bytes that a record of this count holds, as that very part of its bytes or of a copy of them.
pub fn held(bytes: &[u8], count: usize) -> &[u8]
    ensures { seen result ≡ held_part bytes.entry count }
{
    first(first(bytes, MOST_KEPT), count)
}

// Puts the bytes of one part, and those of another after them, into the room.
fn put_both(a: &[u8], b: &[u8], room: &mut [u8])
    requires { length a.now + length b.now ≤ length room.old }
    ensures { room.new ≡ a.now ++ (b.now ++ drop (length a.now + length b.now) room.old) }
{
    block::put_part(a, room);
    block::put_part(b, &mut room[a.len()..]);
}

impl Gathered {
    // Nothing has come yet.
    #[tactic(auto, unfolding(crate::specs::Gathering::gathered_of, writing::specs::Writing::filled_to))]
    pub fn none() -> Gathered
        ensures { result ≡ gathered_of [] }
    {
        Gathered {
            count: 0,
            bytes: [0u8; 80],
        }
    }

    // One more read has come, of any length. Nothing is refused here: the slip is judged once, when it is read.
    #[tactic(auto, using(crate::proofs::Gathering::kept), unfolding(crate::specs::Gathering::held))]
    pub fn add(self, more: &[u8]) -> Gathered
        ensures { result ≡ add_of self more.now }
    {
        let kept = held(&self.bytes, self.count);
        let new = first(more, MOST_KEPT - kept.len());
        let mut bytes = [0u8; 80];
        put_both(kept, new, &mut bytes);
        Gathered {
            count: kept.len() + new.len(),
            bytes,
        }
    }

    // Reads the slip that was gathered, under what was agreed and keys: to be asked once, when no more bytes will come.
    #[tactic(auto, unfolding(crate::specs::Gathering::held))]
    pub fn read(self, agreement: Agreement, keys: &[u8]) -> Result<Slip, Refusal>
        ensures { reading result ≡ read_of agreement keys.now (held self) }
    {
        read(agreement, keys, held(&self.bytes, self.count))
    }
}

// ---- written

// What is told of a slip that was written: its length in bytes, and the cipher calls of its seal.
#[derive(Clone, Copy, PartialEq, Eq)]
pub struct Printed {
    pub length: usize,
    pub calls: usize,
}

// The bytes of field 7F before a tag of so many bytes: its label, its length, high byte first, algorithm, padding and m.
#[tactic(auto, unfolding(crate::specs::Printed::seal_head))]
fn seal_head(agreed: Agreement, bytes: usize) -> [u8; 6]
    requires { (agreed.algorithm < 256) × (agreed.padding < 256) × (agreed.m < 256) × (bytes < 256) }
    ensures { result ≡ seal_head agreed bytes }
{
    let [high, low] = ((3 + bytes) as u16).to_be_bytes();
    [
        fields::SEAL_ROW.label as u8,
        high,
        low,
        agreed.algorithm as u8,
        agreed.padding as u8,
        agreed.m as u8,
    ]
}

// Puts the slip of the covered bytes and the tag's first bytes into the room; or the refusal of a short room.
#[tactic(auto, using(crate::proofs::Printing::putting), unfolding(mac::specs::Tag::bytes_for, crate::specs::Printed::writing))]
fn put_slip(
    agreed: Agreement,
    front: &[u8],
    tag: [u8; 16],
    calls: usize,
    room: &mut [u8],
) -> Result<Printed, Refusal>
    requires { (agreed.algorithm < 256) × (agreed.padding < 256) × (agreed.m ≤ 128) × (length front.now ≤ 53) }
    ensures { (writing result, room.new) ≡ put_of (sealed_by agreed front.now (take (bytes_for agreed.m) tag)) calls room.old }
{
    let bytes = message::bytes_for(agreed.m);
    let tag_at = front.len() + 6;
    let length = tag_at + bytes;
    if room.len() < length {
        return Err(Refusal::TagBytes);
    }
    put_both(front, &seal_head(agreed, bytes), room);
    block::put(tag, bytes, &mut room[tag_at..]);
    Ok(Printed { length, calls })
}

// The slip of bytes that its seal covers to their last; or the refusal of the agreement or the room.
fn write_under(
    agreed: Agreement,
    keys: &[u8],
    front: &[u8],
    room: &mut [u8],
) -> Result<Printed, Refusal>
    requires { (covered front.now ≡ front.now) × (22 ≤ length front.now) × (length front.now ≤ 53) }
    ensures { (writing result, room.new) ≡ write_under agreed keys.now front.now room.old }
{
    let mut tag = [0u8; 16];
    match tag::make(agreed, keys, front, 8 * front.len(), &mut tag)? {
        Outcome::Made(calls) => put_slip(agreed, front, tag, calls, room),
        // `make` comes to nothing else
        _ => Err(Refusal::TagBytes),
    }
}

// Writes the slip that is to say this into the room, sealed under what was agreed.
pub fn write(
    agreement: Agreement,
    keys: &[u8],
    said: Said,
    room: &mut [u8],
) -> Result<Printed, Refusal>
    ensures { (writing result, room.new) ≡ write_of agreement keys.now (says said.entry) room.old }
{
    let Covered { count, bytes } = writing::lay_out(said)?;
    write_under(agreement, keys, &bytes[..count], room)
}
