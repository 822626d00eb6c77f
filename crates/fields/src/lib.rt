// The four fields of a lot slip, judged before any key is looked at: refusals 20 to 24. What each field may hold is one row of the
// format. A field is read from what is left of the slip, and a byte that is not there counts as 0, so that every slice is answered.
#![tactic(auto)]

ghost use Rattle.std.specs.Prelude.{◌≡◌, ◌+◌, ◌-◌, ◌*◌, ◌≤◌, ◌<◌, length, get_or};
ghost use Rattle.bits.specs.Choice.{first_of};
ghost use Rattle.refusals.specs.Number.{number_in};
ghost use Rattle.fields.specs.Field.{outside, any_outside, two_bytes, length_of, end_of, field_faults};
ghost use Rattle.fields.specs.Date.{days_in, date_wrong, digit_at, two_digits, year_of, month_of, day_of, date_of};
ghost use Rattle.fields.specs.Layout.{places_of, layout_of, layout_told, amount_of, amount_wrong, expiry_faults, amount_faults, seal_faults, layout_faults};

use refusals::Refusal;
use std::fmt;

// What a field may hold: its label, the least and the most bytes of its value, and the lowest and the highest that each may be.
#[derive(Clone, Copy)]
pub struct Row {
    pub label: usize,
    pub least: usize,
    pub most: usize,
    pub low: usize,
    pub high: usize,
}

// ---- the format

pub const EXPIRY_ROW: Row = Row {
    label: 0x01,
    least: 8,
    most: 8,
    low: 0x30,
    high: 0x39,
};

pub const LOT_ROW: Row = Row {
    label: 0x02,
    least: 1,
    most: 32,
    low: 0x21,
    high: 0x7E,
};

pub const AMOUNT_ROW: Row = Row {
    label: 0x03,
    least: 4,
    most: 4,
    low: 0x00,
    high: 0xFF,
};

pub const SEAL_ROW: Row = Row {
    label: 0x7F,
    least: 4,
    most: 19,
    low: 0x00,
    high: 0xFF,
};

// Where the fields 02, 03 and 7F begin.
#[derive(Clone, Copy)]
pub struct Places {
    pub lot: usize,
    pub amount: usize,
    pub seal: usize,
}

// Where they begin, and what the slip's fields are refused for, if for anything.
#[derive(Clone, Copy)]
pub struct Layout {
    pub places: Places,
    pub judged: Result<(), Refusal>,
}

// A day of the calendar, or what is written in its place.
#[derive(Clone, Copy, PartialEq, Eq)]
pub struct Date {
    pub year: usize,
    pub month: usize,
    pub day: usize,
}

// Days of the months: a row for common years, a row for leap years.
const DAYS: [[u8; 12]; 2] = [
    [31, 28, 31, 30, 31, 30, 31, 31, 30, 31, 30, 31],
    [31, 29, 31, 30, 31, 30, 31, 31, 30, 31, 30, 31],
];

// ---- bytes and numbers

fn byte(s: &[u8], i: usize) -> u8
    ensures { result ≡ get_or s.now i 0 }
{
    s.get(i).copied().unwrap_or(0)
}

pub fn byte_at(s: &[u8], i: usize) -> usize
    ensures { (result ≡ get_or s.now i 0) × (result < 256) }
{
    byte(s, i) as usize
}

// Two bytes as a number, high byte first.
#[tactic(auto, unfolding(crate::specs::Field::two_bytes))]
fn two_bytes(s: &[u8], i: usize) -> usize
    requires { i < 256 }
    ensures { (result ≡ two_bytes s.now i) × (result < 65536) }
{
    u16::from_be_bytes([byte(s, i), byte(s, i + 1)]) as usize
}

#[tactic(auto, unfolding(crate::specs::Field::outside))]
pub fn outside(least: usize, most: usize, x: usize) -> bool
    ensures { result ≡ outside least most x }
{
    x < least || most < x
}

// Whether some byte is outside.
#[tactic(auto, unfolding(crate::specs::Field::any_outside))]
pub fn any_outside(least: usize, most: usize, s: &[u8]) -> bool
    ensures { result ≡ any_outside least most s.now }
{
    s.iter().any(|&b| outside(least, most, b as usize))
}

// ---- one field

// A field's label and the two bytes of its length.
const HEAD: usize = 3;

// Where a field ends: after its value, or with the slip.
#[tactic(auto, unfolding(crate::specs::Field::end_of, crate::specs::Field::length_of, bits::specs::Choice::pick))]
fn end_of(field: &[u8]) -> usize
    ensures { (result ≡ end_of field.now) × (result ≤ length field.now) }
{
    field.len().min(HEAD + two_bytes(field, 1))
}

// What its row refuses a field for.
#[tactic(auto, using(crate::proofs::Formed::judged), unfolding(crate::specs::Field::field_faults, crate::specs::Field::length_of, crate::specs::Field::value))]
fn field_refusal(row: Row, field: &[u8]) -> Result<(), Refusal>
    ensures { number_in result ≡ first_of (field_faults row field.now) }
{
    if field.len() < HEAD {
        return Err(Refusal::CutShort);
    }
    if byte_at(field, 0) != row.label {
        return Err(Refusal::FieldOrder);
    }
    let length = two_bytes(field, 1);
    if outside(row.least, row.most, length) {
        return Err(Refusal::FieldValue);
    }
    let Some(value) = field[HEAD..].get(..length) else {
        return Err(Refusal::CutShort);
    };
    if any_outside(row.low, row.high, value) {
        return Err(Refusal::FieldValue);
    }
    Ok(())
}

// ---- the expiry

// A decimal digit's number; a byte below the digits counts as 0.
#[tactic(auto, unfolding(crate::specs::Date::digit_at))]
fn digit(s: &[u8], i: usize) -> usize
    ensures { (result ≡ digit_at s.now i) × (result < 256) }
{
    byte(s, i).saturating_sub(b'0') as usize
}

#[tactic(auto, unfolding(crate::specs::Date::two_digits))]
fn two_digits(s: &[u8], i: usize) -> usize
    requires { i < 256 }
    ensures { (result ≡ two_digits s.now i) × (result < 4096) }
{
    10 * digit(s, i) + digit(s, i + 1)
}

#[tactic(auto, unfolding(crate::specs::Date::year_of))]
pub fn year(field: &[u8]) -> usize
    ensures { result ≡ year_of field.now }
{
    100 * two_digits(field, 3) + two_digits(field, 5)
}

#[tactic(auto, unfolding(crate::specs::Date::month_of))]
pub fn month(field: &[u8]) -> usize
    ensures { result ≡ month_of field.now }
{
    two_digits(field, 7)
}

#[tactic(auto, unfolding(crate::specs::Date::day_of))]
pub fn day(field: &[u8]) -> usize
    ensures { result ≡ day_of field.now }
{
    two_digits(field, 9)
}

// As 2026-11-04. Each digit of month and day is a piece of its own.
impl fmt::Display for Date {
    fn fmt<W: fmt::Write>(&self, f: &mut fmt::Formatter<W>) -> fmt::Result {
        let Date { year, month, day } = *self;
        write!(
            f,
            "{year}-{}{}-{}{}",
            month / 10,
            month % 10,
            day / 10,
            day % 10
        )
    }
}

impl Date {
    // The date that an expiry field names.
    pub fn read(field: &[u8]) -> Date
        ensures { result ≡ date_of field.now }
    {
        Date {
            year: year(field),
            month: month(field),
            day: day(field),
        }
    }

    #[tactic(auto, unfolding(crate::specs::Date::days_in, crate::specs::Date::days, crate::specs::Date::leap, bits::specs::Choice::pick))]
    fn days_in_month(self) -> u8
        requires { (1 ≤ self.month) × (self.month ≤ 12) }
        ensures { result ≡ days_in self.year self.month }
    {
        let leap = self.year % 4 == 0;
        DAYS[leap as usize][self.month - 1]
    }

    // Whether it is none of the years 2000 to 2099, or no day of the calendar.
    #[tactic(auto, unfolding(crate::specs::Date::date_wrong, crate::specs::Field::outside))]
    pub fn is_wrong(self) -> bool
        ensures { result ≡ date_wrong self.year self.month self.day }
    {
        outside(2000, 2099, self.year)
            || outside(1, 12, self.month)
            || outside(1, self.days_in_month() as usize, self.day)
    }
}

#[tactic(auto, using(crate::proofs::Formed::judged), unfolding(crate::specs::Layout::expiry_faults))]
fn expiry_refusal(field: &[u8]) -> Result<(), Refusal>
    ensures { number_in result ≡ first_of (expiry_faults field.now) }
{
    field_refusal(EXPIRY_ROW, field)?;
    if Date::read(field).is_wrong() {
        return Err(Refusal::Date);
    }
    Ok(())
}

// ---- the lot, the amount, the seal

// How many bytes the lot has, as the field says.
#[tactic(auto, unfolding(crate::specs::Field::length_of))]
pub fn lot_length(field: &[u8]) -> usize
    ensures { result ≡ length_of field.now }
{
    two_bytes(field, 1)
}

#[tactic(auto, unfolding(crate::specs::Layout::amount_of, crate::specs::Field::two_bytes))]
pub fn amount(field: &[u8]) -> usize
    ensures { result ≡ amount_of field.now }
{
    u32::from_be_bytes([3, 4, 5, 6].map(|i| byte(field, i))) as usize
}

pub fn amount_wrong(amount: usize) -> bool
    ensures { result ≡ amount_wrong amount }
{
    outside(1, 1000000, amount)
}

#[tactic(auto, using(crate::proofs::Formed::judged), unfolding(crate::specs::Layout::amount_faults))]
fn amount_refusal(field: &[u8]) -> Result<(), Refusal>
    ensures { number_in result ≡ first_of (amount_faults field.now) }
{
    field_refusal(AMOUNT_ROW, field)?;
    if amount_wrong(amount(field)) {
        return Err(Refusal::FieldValue);
    }
    Ok(())
}

#[tactic(auto, using(crate::proofs::Formed::judged), unfolding(crate::specs::Layout::seal_faults))]
fn seal_refusal(field: &[u8]) -> Result<(), Refusal>
    ensures { number_in result ≡ first_of (seal_faults field.now) }
{
    field_refusal(SEAL_ROW, field)?;
    if end_of(field) < field.len() {
        return Err(Refusal::AfterTheSeal);
    }
    Ok(())
}

// ---- the slip

#[tactic(auto, unfolding(crate::specs::Layout::places_of, crate::specs::Layout::lot_field_at, crate::specs::Layout::amount_at, crate::specs::Layout::seal_at))]
fn field_places(slip: &[u8]) -> Places
    ensures { result ≡ places_of slip.now }
{
    let lot = end_of(slip);
    let amount = lot + end_of(&slip[lot..]);
    let seal = amount + end_of(&slip[amount..]);
    Places { lot, amount, seal }
}

// What the four fields are refused for, the first of 20 to 24.
#[tactic(auto, using(crate::proofs::Laid::in_order))]
fn layout_refusal(slip: &[u8], at: Places) -> Result<(), Refusal>
    requires { at ≡ places_of slip.now }
    ensures { number_in result ≡ first_of (layout_faults slip.now) }
{
    expiry_refusal(slip)?;
    field_refusal(LOT_ROW, &slip[at.lot..])?;
    amount_refusal(&slip[at.amount..])?;
    seal_refusal(&slip[at.seal..])
}

// Where the fields stand, found once, and the first refusal of 20 to 24.
#[tactic(auto, unfolding(crate::specs::Layout::layout_of))]
pub fn laid_out(slip: &[u8]) -> Layout
    ensures { layout_told result ≡ layout_of slip.now }
{
    let places = field_places(slip);
    Layout {
        places,
        judged: layout_refusal(slip, places),
    }
}
