// A message and the room for its tag, judged: refusals 7 to 10, which one call and sessions share, and 41; and how many bytes hold so
// many bits.
#![tactic(auto)]

ghost use Rattle.std.specs.Prelude.{◌≡◌, ◌+◌};
ghost use Rattle.bits.specs.Choice.{first_of};
ghost use Rattle.mac.specs.Tag.{bytes_for};
ghost use Rattle.refusals.specs.Number.{number_in};
ghost use Rattle.message.specs.Faults.{length_wrong, too_many_bits, too_few_blocks, room_short, tag_length_wrong, message_faults, no_such_block};

use refusals::Refusal;
use settings::Settings;

// The bit count divided by 8, rounded up.
pub fn bytes_for(bits: usize) -> usize
    ensures { result ≡ bytes_for bits }
{
    bits.div_ceil(8)
}

pub fn length_wrong(length: usize, bits: usize) -> bool
    ensures { result ≡ length_wrong length bits }
{
    length != bytes_for(bits)
}

pub fn too_many_bits(bits: usize) -> bool
    ensures { result ≡ too_many_bits bits }
{
    Settings::MOST_BITS < bits
}

// Whether so many more bits are too many, with no sum that could wrap.
pub fn too_many_more(total: usize, bits: usize) -> bool
    ensures { result ≡ too_many_bits (total + bits) }
{
    Settings::MOST_BITS < total || Settings::MOST_BITS - total < bits
}

pub fn too_few_blocks(s: Settings, bits: usize) -> bool
    ensures { result ≡ too_few_blocks s bits }
{
    let row = mac::row_of(s.algorithm);
    mac::block_count(cipher::SM4, s.padding, bits) < row.least
}

pub fn room_short(m: usize, room: usize) -> bool
    ensures { result ≡ room_short m room }
{
    room < bytes_for(m)
}

pub fn tag_length_wrong(m: usize, length: usize) -> bool
    ensures { result ≡ tag_length_wrong m length }
{
    length != bytes_for(m)
}

// The first refusal of 7 to 10, if there is one; the test for 10 is the caller's.
pub fn refusal(s: Settings, length: usize, bits: usize, ten: bool) -> Result<(), Refusal>
    ensures { number_in result ≡ first_of (message_faults s length bits ten) }
{
    bits::first_fault(&[
        (length_wrong(length, bits), Refusal::MessageBytes),
        (too_many_bits(bits), Refusal::TooManyBits),
        (too_few_blocks(s, bits), Refusal::TooFewBlocks),
        (ten, Refusal::TagBytes),
    ])
}

// Whether no whole block of the message has this number. Nothing is multiplied, so nothing wraps.
pub fn no_such_block(bits: usize, number: usize) -> bool
    ensures { result ≡ no_such_block bits number }
{
    bits / cipher::width(cipher::SM4) <= number
}
