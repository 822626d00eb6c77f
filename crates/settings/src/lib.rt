// What was agreed with a supplier, and the caller's keys, judged: refusals 1 to 5, each one test in one order. Numbers come in as
// `usize` and nothing is narrowed before it is tested.
#![tactic(auto)]

ghost use Rattle.std.specs.Prelude.{◌≡◌};
ghost use Rattle.keys.specs.Given.{key_bits, Unpacks};
ghost use Rattle.refusals.specs.Number.{number_in};
ghost use Rattle.settings.specs.InUse.{unpacked};
ghost use Rattle.settings.specs.Faults.{algorithm_wrong, padding_wrong, size_wrong, settings_refusal};
ghost use Rattle.settings.specs.Answers.{settings_of, checked_told, checked_of};

use refusals::Refusal;

// What a call comes to that is not refused: a start or a piece was accepted; a tag was made, a tag offered is the right one or is not,
// each with the number of cipher calls.
#[derive(Clone, Copy, PartialEq, Eq)]
pub enum Outcome {
    Accepted,
    Made(usize),
    Yes(usize),
    No(usize),
}

// What was agreed with a supplier: the settings, and whether the keys come from a master.
#[derive(Clone, Copy, PartialEq, Eq)]
pub struct Agreement {
    pub algorithm: usize,
    pub padding: usize,
    pub m: usize,
    pub master: bool,
}

// The settings that an agreement makes, by the paper's numbers. No rule refuses them where they come from `checked`.
#[derive(Clone, Copy)]
pub struct Settings {
    pub algorithm: usize,
    pub padding: usize,
    pub m: usize,
}

impl Settings {
    pub const LAST_ALGORITHM: usize = 8;

    pub const SHORTEST_TAG: usize = 1;

    pub const LONGEST_TAG: usize = mac::Row::LONGEST_TAG;

    pub const LONGEST_TAG_OF_7: usize = mac::Row::LONGEST_TAG_OF_7;

    pub const MOST_BITS: usize = 8388608;

    // The settings of an agreement, refused or not. (docs/PROMISES.md names this function, so it is no From.)
    pub fn of(agreement: Agreement) -> Settings
        ensures { result ≡ settings_of agreement }
    {
        Settings {
            algorithm: agreement.algorithm,
            padding: agreement.padding,
            m: agreement.m,
        }
    }

    // The settings, or the first refusal of 1 to 5; told are the keys in use, and how many bytes were given for them.
    pub fn checked(
        agreement: Agreement,
        given: usize,
        keys: keys::KeyBlocks,
    ) -> Result<Settings, Refusal>
        ensures { checked_told result ≡ checked_of agreement given (key_bits keys) }
    {
        refusal(agreement, given, keys)?;
        Ok(Settings::of(agreement))
    }
}

// The keys in use that an agreement makes of the bytes as given, and the cipher calls made for it.
pub fn unpack(agreement: Agreement, given: &[u8]) -> keys::Unpacked
    ensures { Unpacks result (unpacked agreement given.now) }
{
    keys::unpack(agreement.master, agreement.algorithm, given)
}

// Algorithms and paddings are the paper's numbers: any may come.
fn algorithm_wrong(algorithm: usize) -> bool
    ensures { result ≡ algorithm_wrong algorithm }
{
    algorithm < 1 || Settings::LAST_ALGORITHM < algorithm
}

fn padding_wrong(algorithm: usize, padding: usize) -> bool
    ensures { result ≡ padding_wrong algorithm padding }
{
    let row = mac::row_of(algorithm);
    if row.four {
        padding != 4
    } else {
        padding < 1 || 3 < padding
    }
}

fn size_wrong(algorithm: usize, m: usize) -> bool
    ensures { result ≡ size_wrong algorithm m }
{
    let row = mac::row_of(algorithm);
    m < Settings::SHORTEST_TAG || row.longest < m
}

// The first refusal of 1 to 5, if there is one.
pub fn refusal(agreement: Agreement, given: usize, keys: keys::KeyBlocks) -> Result<(), Refusal>
    ensures { number_in result ≡ settings_refusal agreement given (key_bits keys) }
{
    let algorithm = agreement.algorithm;
    bits::first_fault(&[
        (algorithm_wrong(algorithm), Refusal::Algorithm),
        (
            padding_wrong(algorithm, agreement.padding),
            Refusal::Padding,
        ),
        (size_wrong(algorithm, agreement.m), Refusal::TagBits),
        (
            keys::bytes_wrong(agreement.master, algorithm, given),
            Refusal::KeyBytes,
        ),
        (keys::same(algorithm, keys), Refusal::SameKeys),
    ])
}
