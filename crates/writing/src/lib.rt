// The fields of a slip that its seal covers, written by the rows of the format that reading uses: what cannot be written, refusals
// 22 and 23, and the bytes. Numbers come in as `usize`, and nothing is narrowed before it is tested.
#![tactic(auto)]

ghost use Rattle.std.specs.Prelude.{◌≡◌, ◌++◌, ◌+◌, ◌≤◌, ◌<◌, ◌^◌, length, drop};
ghost use Rattle.bits.specs.Choice.{first_of};
ghost use Rattle.refusals.specs.Number.{number_in};
ghost use Rattle.fields.specs.Field.{field_of};
ghost use Rattle.writing.specs.Writing.{says, value_wrong, says_faults, digit_of, expiry_value, amount_value, covered_of, covered_told, lay_out};

use fields::Date;
use refusals::Refusal;

// What a slip is to say: its expiry, the bytes of its lot, and its amount in microlitres.
#[derive(Clone, Copy)]
pub struct Said<'a> {
    pub date: Date,
    pub lot: &'a [u8],
    pub amount: usize,
}

// The covered bytes of a slip: so many, and zeros after them; 53 at the most, of which 3 + 8 are the expiry's, 3 + 32 the lot's and 3 + 4
// the amount's. An array and a count, since the library has no heap.
#[derive(Clone, Copy)]
pub struct Covered {
    pub count: usize,
    pub bytes: [u8; 53],
}

// ---- the fields one by one

#[tactic(auto, unfolding(crate::specs::Writing::value_wrong))]
fn value_wrong(row: fields::Row, value: &[u8]) -> bool
    ensures { result ≡ value_wrong row value.now }
{
    fields::outside(row.least, row.most, value.len())
        || fields::any_outside(row.low, row.high, value)
}

// The lowest decimal digit, as its byte.
#[tactic(auto, unfolding(crate::specs::Writing::digit_of))]
fn digit(x: usize) -> u8
    ensures { result ≡ digit_of x }
{
    b'0' + (x % 10) as u8
}

#[tactic(auto, unfolding(crate::specs::Writing::expiry_value))]
fn expiry_value(date: Date) -> [u8; 8]
    ensures { result ≡ expiry_value date.year date.month date.day }
{
    let Date { year, month, day } = date;
    [
        year / 1000,
        year / 100,
        year / 10,
        year,
        month / 10,
        month,
        day / 10,
        day,
    ]
    .map(digit)
}

// Puts a field at the front of the room: its label, its length, high byte first, and its value.
fn put_field(row: fields::Row, value: &[u8], room: &mut [u8])
    requires { (row.label < 256) × (length value.now < 65536) × (3 + length value.now ≤ length room.old) }
    ensures { room.new ≡ field_of row value.now ++ drop (3 + length value.now) room.old }
{
    let [high, low] = (value.len() as u16).to_be_bytes();
    block::put_part(&[row.label as u8, high, low], room);
    block::put_part(value, &mut room[3..]);
}

// ---- what a slip says

impl Said<'_> {
    // The first of 22 (lot or amount) and 23 (date), if there is one.
    #[tactic(auto, using(crate::proofs::Sayable::numbered), unfolding(refusals::specs::Number::faults_of, crate::specs::Writing::says_faults))]
    fn refusal(self) -> Result<(), Refusal>
        ensures { number_in result ≡ first_of (says_faults (says self.entry)) }
    {
        bits::first_fault(&[
            (value_wrong(fields::LOT_ROW, self.lot), Refusal::FieldValue),
            (fields::amount_wrong(self.amount), Refusal::FieldValue),
            (self.date.is_wrong(), Refusal::Date),
        ])
    }

    // Puts the fields 01, 02 and 03 one after the other at the front of the room.
    fn put_covered(self, room: &mut [u8])
        requires { (length self.lot.now ≤ 32) × (self.amount < 2 ^ 32) × (53 ≤ length room.old) }
        ensures { room.new ≡ covered_of (says self.entry) ++ drop (21 + length self.entry.lot.now) room.old }
    {
        let expiry = expiry_value(self.date);
        let microlitres = (self.amount as u32).to_be_bytes();
        let at = 14 + self.lot.len();
        put_field(fields::EXPIRY_ROW, &expiry, room);
        put_field(fields::LOT_ROW, self.lot, &mut room[11..]);
        put_field(fields::AMOUNT_ROW, &microlitres, &mut room[at..]);
    }
}

// The covered bytes of the slip that says this, or the refusal.
pub fn lay_out(said: Said) -> Result<Covered, Refusal>
    ensures { covered_told result ≡ lay_out (says said.entry) }
{
    said.refusal()?;
    let mut bytes = [0u8; 53];
    said.put_covered(&mut bytes);
    Ok(Covered {
        count: 21 + said.lot.len(),
        bytes,
    })
}
