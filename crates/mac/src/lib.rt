// The definitions of GB/T 15852.1 stand in specs/. What the code needs of them by itself is the algorithm's row of document 01's
// table, and q, the number of blocks of a padded message.
#![tactic(auto)]

ghost use Rattle.std.specs.Prelude.{◌≡◌, suc, ◌-◌, ◌/◌};
ghost use Rattle.cipher.specs.Cipher.{Cipher};
ghost use Rattle.cipher.specs.Ciphers.{cipher_at};
ghost use Rattle.mac.specs.Padding.{method_at, block_count};
ghost use Rattle.mac.specs.Algorithm.{algorithm_at, row};

// An algorithm's row: padding 4, or 1 to 3; K and K', or K alone; whether K and K' must differ; whether K'' is used; whether keys may
// come from a master; the calls besides one for each block; the fewest blocks; the longest tag.
#[derive(Clone, Copy)]
pub struct Row {
    pub four: bool,
    pub two: bool,
    pub differ: bool,
    pub third: bool,
    pub master: bool,
    pub further: usize,
    pub least: usize,
    pub longest: usize,
}

impl Row {
    pub const LONGEST_TAG: usize = 128;

    pub const LONGEST_TAG_OF_7: usize = 63;

    // Algorithm 1's, from which the others are told apart.
    const FIRST: Row = Row {
        four: false,
        two: false,
        differ: false,
        third: false,
        master: false,
        further: 0,
        least: 1,
        longest: Row::LONGEST_TAG,
    };
}

// The row of an algorithm by its number; that of algorithm 1 where no algorithm has it.
// By the paper's number: every number is answered, so an enum would ask more of callers.
#[tactic(auto, unfolding(crate::specs::Algorithm::algorithm_at))]
pub fn row_of(algorithm: usize) -> Row
    ensures { result ≡ row (algorithm_at algorithm) }
{
    match algorithm {
        2 => Row {
            two: true,
            differ: true,
            master: true,
            further: 1,
            ..Row::FIRST
        },
        3 => Row {
            two: true,
            further: 2,
            ..Row::FIRST
        },
        4 => Row {
            two: true,
            differ: true,
            third: true,
            master: true,
            further: 2,
            least: 2,
            ..Row::FIRST
        },
        5 | 8 => Row {
            four: true,
            further: 1,
            ..Row::FIRST
        },
        6 => Row {
            two: true,
            differ: true,
            master: true,
            ..Row::FIRST
        },
        7 => Row {
            four: true,
            longest: Row::LONGEST_TAG_OF_7,
            ..Row::FIRST
        },
        _ => Row::FIRST,
    }
}

// How many blocks hold so many bits: one at least.
fn needed(cipher: usize, bits: usize) -> usize
    ensures { result ≡ suc ((bits - 1) / (cipher_at cipher).n) }
{
    bits.div_ceil(cipher::width(cipher)).max(1)
}

// q, by the numbers of the cipher and the padding and the message's bit count.
// By the paper's number: every number is answered, so an enum would ask more of callers.
pub fn block_count(cipher: usize, padding: usize, bits: usize) -> usize
    ensures { result ≡ block_count (method_at padding) (cipher_at cipher).n bits }
{
    match padding {
        2 => bits / cipher::width(cipher) + 1,
        3 => needed(cipher, bits) + 1,
        _ => needed(cipher, bits),
    }
}
