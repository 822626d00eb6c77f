// The refusals of document 01, every number of the paper in one list, and what each says in words.
#![tactic(auto)]

ghost use Rattle.std.specs.Prelude.{◌≡◌};
ghost use Rattle.refusals.specs.Number.{refusal_number};

use std::fmt;

// In the paper's order. The number 6 is retired: no answer has it.
#[derive(Clone, Copy, PartialEq, Eq)]
pub enum Refusal {
    Algorithm,
    Padding,
    TagBits,
    KeyBytes,
    SameKeys,
    MessageBytes,
    TooManyBits,
    TooFewBlocks,
    TagBytes,
    Closed,
    DeclaredLength,
    CutShort,
    FieldOrder,
    FieldValue,
    Date,
    AfterTheSeal,
    NotAsAgreed,
    Seal,
    NoSuchBlock,
}

impl Refusal {
    // The paper's number.
    pub fn number(self) -> usize
        ensures { result ≡ refusal_number self }
    {
        match self {
            Refusal::Algorithm => 1,
            Refusal::Padding => 2,
            Refusal::TagBits => 3,
            Refusal::KeyBytes => 4,
            Refusal::SameKeys => 5,
            Refusal::MessageBytes => 7,
            Refusal::TooManyBits => 8,
            Refusal::TooFewBlocks => 9,
            Refusal::TagBytes => 10,
            Refusal::Closed => 11,
            Refusal::DeclaredLength => 12,
            Refusal::CutShort => 20,
            Refusal::FieldOrder => 21,
            Refusal::FieldValue => 22,
            Refusal::Date => 23,
            Refusal::AfterTheSeal => 24,
            Refusal::NotAsAgreed => 25,
            Refusal::Seal => 30,
            Refusal::NoSuchBlock => 41,
        }
    }
}

// The meaning, as the programs print it after the number; docs/ANSWERS.md has the same words.
impl fmt::Display for Refusal {
    fn fmt<W: fmt::Write>(&self, f: &mut fmt::Formatter<W>) -> fmt::Result {
        f.write_str(match self {
            Refusal::Algorithm => "the algorithm is not one of 1 to 8",
            Refusal::Padding => "the padding does not belong to the algorithm",
            Refusal::TagBits => "the tag's number of bits is not allowed for the algorithm",
            Refusal::KeyBytes =>
                "the keys have the wrong length for the algorithm, or it takes no master",
            Refusal::SameKeys => "the first key is the same as another and must differ",
            Refusal::MessageBytes => "the message has the wrong number of bytes for its bits",
            Refusal::TooManyBits => "the message has more than 8388608 bits",
            Refusal::TooFewBlocks => "the message is too short for the algorithm",
            Refusal::TagBytes => "the tag or the room for it has the wrong number of bytes",
            Refusal::Closed =>
                "the session is closed or for the other purpose, or its last piece ended within a byte",
            Refusal::DeclaredLength => "the message is not as long as was declared",
            Refusal::CutShort => "the slip is cut short",
            Refusal::FieldOrder => "a field is missing or out of order",
            Refusal::FieldValue => "a field's length or value is not allowed",
            Refusal::Date => "the expiry is not a real date from 2000 to 2099",
            Refusal::AfterTheSeal => "there are bytes after the seal",
            Refusal::NotAsAgreed => "the slip names another algorithm, padding or m than agreed",
            Refusal::Seal => "the seal is wrong",
            Refusal::NoSuchBlock => "no such whole block",
        })
    }
}
