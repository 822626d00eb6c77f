// The one room that knows the ciphers apart, each by its number. A block is sixteen bytes by value, or four words between the
// blocks of a long message: of a cipher of n bits the first n bits count, and zeros stand after them in every answer. What differs
// between ciphers ends here: round keys are 32 words, and the tables that are lent have one type each, `Table` and `Wide`, so that no
// caller carries more for another cipher.
#![tactic(auto)]

ghost use Rattle.std.specs.Prelude.{◌≡◌, ◌*◌, length, take};
ghost use Rattle.bits.specs.Str.{bytes_bits, words, xor_b, filled};
ghost use Rattle.cipher.specs.Ciphers.{cipher_at, table_at, wide_at, round_keys_at, backwards_at, enc_at, dec_at, words_bits};

pub const SM4: usize = 1;

pub use sm4::{Table, Wide};

// ---- numbers

// The bits of a block.
#[tactic(auto, unfolding(crate::specs::Ciphers::cipher_at))]
pub fn width(cipher: usize) -> usize
    ensures { result ≡ (cipher_at cipher).n }
{
    128
}

// The low part of the polynomial by which blocks are doubled.
#[tactic(auto, unfolding(crate::specs::Ciphers::cipher_at))]
pub fn poly(cipher: usize) -> u32
    ensures { result ≡ (cipher_at cipher).poly }
{
    0x87
}

// ---- tables

// The table, to be lent.
#[tactic(auto, unfolding(crate::specs::Ciphers::table_at))]
pub fn table(cipher: usize) -> Table
    ensures { result ≡ table_at cipher }
{
    sm4::table()
}

// The table that long messages take besides, to be lent.
#[tactic(auto, unfolding(crate::specs::Ciphers::wide_at))]
pub fn wide(cipher: usize) -> Wide
    ensures { result ≡ wide_at cipher }
{
    sm4::wide()
}

// ---- blocks

// The round keys of a key: its first bits, as many as a key has.
#[tactic(auto, using(crate::proofs::Laws::whole_blocks), unfolding(crate::specs::Ciphers::cipher_at, crate::specs::Ciphers::round_keys_at))]
pub fn schedule(t: &Table, cipher: usize, key: [u8; 16]) -> [u32; 32]
    requires { t.now ≡ table_at cipher }
    ensures { words result ≡ round_keys_at cipher (take (cipher_at cipher).key_width (bytes_bits key)) }
{
    sm4::schedule(t, key)
}

// Round keys under which enciphering is deciphering under these.
#[tactic(auto, using(sm4::proofs::Laws::words_reverse), unfolding(crate::specs::Ciphers::backwards_at))]
pub fn backwards(cipher: usize, rk: [u32; 32]) -> [u32; 32]
    ensures { words result ≡ backwards_at cipher (words rk) }
{
    sm4::backwards(rk)
}

// One block enciphered.
#[tactic(auto, using(crate::proofs::Laws::whole_blocks), unfolding(crate::specs::Ciphers::cipher_at, crate::specs::Ciphers::enc_at))]
pub fn encrypt(t: &Table, cipher: usize, rk: [u32; 32], block: [u8; 16]) -> [u8; 16]
    requires { t.now ≡ table_at cipher }
    ensures { bytes_bits result ≡ filled 128 (enc_at cipher (words rk) (take (cipher_at cipher).n (bytes_bits block))) }
{
    sm4::encrypt(t, rk, block)
}

// One block deciphered.
#[tactic(auto, using(crate::proofs::Laws::whole_blocks), unfolding(crate::specs::Ciphers::cipher_at, crate::specs::Ciphers::dec_at))]
pub fn decrypt(t: &Table, cipher: usize, rk: [u32; 32], block: [u8; 16]) -> [u8; 16]
    requires { t.now ≡ table_at cipher }
    ensures { bytes_bits result ≡ filled 128 (dec_at cipher (words rk) (take (cipher_at cipher).n (bytes_bits block))) }
{
    sm4::decrypt(t, rk, block)
}

// ---- blocks of a long message, chained in words

// A block as words.
#[tactic(auto, using(crate::proofs::Laws::whole_blocks), unfolding(crate::specs::Ciphers::cipher_at))]
pub fn load(cipher: usize, block: [u8; 16]) -> [u32; 4]
    ensures { words_bits result ≡ filled 128 (take (cipher_at cipher).n (bytes_bits block)) }
{
    sm4::load(&block)
}

// Words as a block.
#[tactic(auto, using(crate::proofs::Laws::whole_blocks), unfolding(crate::specs::Ciphers::cipher_at))]
pub fn store(cipher: usize, h: [u32; 4]) -> [u8; 16]
    ensures { bytes_bits result ≡ filled 128 (take (cipher_at cipher).n (words_bits h)) }
{
    sm4::store(h)
}

// The next value of a chain: a block, which is a part of a lent message, goes into the value by xor and is enciphered.
#[tactic(auto, using(crate::proofs::Laws::whole_blocks), unfolding(crate::specs::Ciphers::cipher_at, crate::specs::Ciphers::enc_at))]
pub fn absorb(
    t: &Table,
    w: &Wide,
    cipher: usize,
    rk: [u32; 32],
    h: [u32; 4],
    part: &[u8],
) -> [u32; 4]
    requires { (t.now ≡ table_at cipher) × (w.now ≡ wide_at cipher) × (8 * length part.now ≡ (cipher_at cipher).n) }
    ensures { words_bits result ≡ filled 128 (enc_at cipher (words rk) (xor_b (bytes_bits part.now) (take (cipher_at cipher).n (words_bits h)))) }
{
    sm4::absorb(t, w, rk, h, part)
}
