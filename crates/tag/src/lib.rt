// (Agreement, keys, message and bits go one by one: so C has them, and the bindings in the same order.)
// A tag in one call: made, or checked, or a lost block of the message worked out of it. Every input is answered; the message is worked
// block by block where it lies.
#![tactic(auto)]

ghost use Rattle.std.specs.Prelude.{◌≡◌, suc, ◌*◌, ◌≤◌, length};
ghost use Rattle.bits.specs.Str.{bytes_bits};
ghost use Rattle.block.specs.Block.{storage, filled_block};
ghost use Rattle.cipher.specs.Cipher.{Cipher};
ghost use Rattle.cipher.specs.Ciphers.{cipher_at};
ghost use Rattle.mac.specs.declared.Row.{Row};
ghost use Rattle.mac.specs.Run.{Run};
ghost use Rattle.mac.specs.Padding.{method_at, block_count};
ghost use Rattle.mac.specs.Algorithm.{algorithm_at, row, Keys};
ghost use Rattle.mac.specs.Tag.{bytes_for};
ghost use Rattle.keys.specs.Given.{key_bits, Unpacks};
ghost use Rattle.settings.specs.Answers.{told};
ghost use Rattle.tag.specs.OneCall.{tag_at, make_of, check_of, make_under, check_under};
ghost use Rattle.tag.specs.Restore.{full_only, restored_told, lost_at, restore_of, restore_under};

use chain::Keyed;
use keys::{KeyBlocks, Unpacked};
use refusals::Refusal;
use settings::{Agreement, Outcome, Settings};

// The tag's m bits, and zeros after them.
fn tag_block(s: Settings, keys: KeyBlocks, message: &[u8], bits: usize) -> [u8; 16]
    requires { (bits ≤ 8388608) × (length message.now ≡ bytes_for bits) }
    ensures { bytes_bits result ≡ filled_block (tag_at s (key_bits keys) message.now bits) }
{
    let t = cipher::table(cipher::SM4);
    let k = Keyed::new(&t, cipher::SM4, s, keys);
    let begun = chain::begin(&k, bits as u32);
    let fed = chain::feed(&k, begun, 0, message, bits);
    chain::close(&k, fed, bits)
}

// A tag made under sound settings, or refusals 7 to 10.
fn make_under(
    s: Settings,
    unpacked: Unpacked,
    message: &[u8],
    bits: usize,
    room: &mut [u8],
) -> Result<Outcome, Refusal>
    requires { s.m ≤ storage }
    ensures { (R : Run Keys) → Unpacks unpacked R → (told result, room.new) ≡ make_under s R message.now bits room.old }
{
    let ten = message::room_short(s.m, room.len());
    message::refusal(s, message.len(), bits, ten)?;
    let tag = tag_block(s, unpacked.keys, message, bits);
    block::put(tag, message::bytes_for(s.m), room);
    Ok(Outcome::Made(chain::calls(cipher::SM4, s, unpacked.calls, bits)))
}

// Makes the tag of a message's first bits into the first bytes of the room.
pub fn make(
    agreement: Agreement,
    keys: &[u8],
    message: &[u8],
    bits: usize,
    room: &mut [u8],
) -> Result<Outcome, Refusal>
    ensures { (told result, room.new) ≡ make_of agreement keys.now message.now bits room.old }
{
    let unpacked = settings::unpack(agreement, keys);
    let s = Settings::checked(agreement, keys.len(), unpacked.keys)?;
    make_under(s, unpacked, message, bits, room)
}

// A tag checked under sound settings, or refusals 7 to 10.
fn check_under(
    s: Settings,
    unpacked: Unpacked,
    message: &[u8],
    bits: usize,
    offered: &[u8],
) -> Result<Outcome, Refusal>
    requires { s.m ≤ storage }
    ensures { (R : Run Keys) → Unpacks unpacked R → told result ≡ check_under s R message.now bits offered.now }
{
    let ten = message::tag_length_wrong(s.m, offered.len());
    message::refusal(s, message.len(), bits, ten)?;
    let tag = tag_block(s, unpacked.keys, message, bits);
    let calls = chain::calls(cipher::SM4, s, unpacked.calls, bits);
    let n = message::bytes_for(s.m);
    Ok(if block::equal_bytes(offered, &tag[..n]) {
        Outcome::Yes(calls)
    } else {
        Outcome::No(calls)
    })
}

// Whether a tag is that of a message's first bits.
pub fn check(
    agreement: Agreement,
    keys: &[u8],
    message: &[u8],
    bits: usize,
    offered: &[u8],
) -> Result<Outcome, Refusal>
    ensures { told result ≡ check_of agreement keys.now message.now bits offered.now }
{
    let unpacked = settings::unpack(agreement, keys);
    let s = Settings::checked(agreement, keys.len(), unpacked.keys)?;
    check_under(s, unpacked, message, bits, offered)
}

// ---- a lost block

// The agreement, with m = 0, which 3 refuses, in place of an m that is not a full tag's.
fn full_only(agreement: Agreement) -> Agreement
    ensures { result ≡ full_only agreement }
{
    if agreement.m == cipher::width(cipher::SM4) {
        return agreement;
    }
    Agreement { m: 0, ..agreement }
}

// The bits of the lost block, and zeros after them.
fn lost_block(
    s: Settings,
    keys: KeyBlocks,
    message: &[u8],
    bits: usize,
    number: usize,
    offered: &[u8],
) -> [u8; 16]
    requires { (bits ≤ 8388608) × (length message.now ≡ bytes_for bits) × (8 * length offered.now ≡ (cipher_at 1).n) × (suc number * (cipher_at 1).n ≤ bits) × ((row (algorithm_at s.algorithm)).least ≤ block_count (method_at s.padding) (cipher_at 1).n bits) }
    ensures { bytes_bits result ≡ filled_block (lost_at s (key_bits keys) message.now bits number offered.now) }
{
    let t = cipher::table(cipher::SM4);
    let k = Keyed::new(&t, cipher::SM4, s, keys);
    chain::back::lost(&k, message, bits, number, block::front(offered))
}

// A lost block worked out under sound settings, or refusals 7 to 10 and 41.
fn restore_under(
    s: Settings,
    keys: KeyBlocks,
    message: &mut [u8],
    bits: usize,
    number: usize,
    offered: &[u8],
) -> Result<(), Refusal>
    requires { s.m ≡ (cipher_at 1).n }
    ensures { (restored_told result, message.new) ≡ restore_under s (key_bits keys) message.old bits number offered.now }
{
    let ten = message::tag_length_wrong(s.m, offered.len());
    message::refusal(s, message.len(), bits, ten)?;
    if message::no_such_block(bits, number) {
        return Err(Refusal::NoSuchBlock);
    }
    let size = message::bytes_for(s.m);
    let filling = lost_block(s, keys, message, bits, number, offered);
    block::put(filling, size, &mut message[number * size..]);
    Ok(())
}

// Works a lost block of a message out of its full tag, and puts it where it was.
pub fn restore(
    agreement: Agreement,
    keys: &[u8],
    message: &mut [u8],
    bits: usize,
    block: usize,
    tag: &[u8],
) -> Result<(), Refusal>
    ensures { (restored_told result, message.new) ≡ restore_of agreement keys.now message.old bits block tag.now }
{
    let keys_in_use = settings::unpack(agreement, keys).keys;
    let s = Settings::checked(full_only(agreement), keys.len(), keys_in_use)?;
    restore_under(s, keys_in_use, message, bits, block, tag)
}
