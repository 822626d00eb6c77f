// SM4, the block cipher of GB/T 32907-2016. Byte table and rotations are joined in tables of words: a round looks up what each of
// the four bytes adds. A table is lent through every call, so that no hot function copies it: a caller takes `let t = sm4::table();`
// once. Long messages take a wide table besides, which spares them the turning of what is looked up; there it is worth its copying.
#![tactic(auto)]

ghost use Rattle.std.specs.Prelude.{◌≡◌, ℕ, List, [], ◌∷◌, reverse, ◌*◌, ◌<◌, ◌≤◌, length, take, drop};
ghost use Rattle.bits.specs.Str.{Bits, bits_n, bytes_bits, words, xor_b};
ghost use Rattle.sm4.specs.Constants.{fk, ck, CK};
ghost use Rattle.sm4.specs.Cipher.{quad, flat, four, L, L', T, T', rounds, R, enc, dec, round_keys};
ghost use Rattle.sm4.specs.Table.{share, table, wide};
ghost use Rattle.sm4.specs.Split.{joined, Ready, Stepped};
ghost use Rattle.sm4.specs.Mixing.{Mixes, mixes-T, mixes-T'};

mod words;

pub use words::{Table, Wide};

// ---- tables

// The table, to be lent.
pub fn table() -> Table
    ensures { result ≡ table }
{
    Table(words::TABLE)
}

// The table that long messages take besides, to be lent.
pub fn wide() -> Wide
    ensures { result ≡ wide }
{
    Wide(words::WIDE)
}

// ---- the mixing functions

// T or T' of a word, by tables: the xor of what the word's four bytes add, each in its place.
trait Mixing {
    // L or L', and T or T', which it ends
    ghost last: { Bits → Bits };

    ghost mixing: { Bits → Bits };

    // What the byte x adds in place j, the highest counted as 0.
    fn added(&self, j: usize, x: u8) -> u32
        requires { j < 4 }
        ensures { bits_n 32 result ≡ share last j x };

    ghost mixes: { Mixes last mixing };
}

// T by the table alone: what a byte adds in the first place, turned.
#[tactic(auto, using(crate::proofs::Lookup::lookups))]
impl Mixing for Table {
    ghost last = { L };

    ghost mixing = { T };

    fn added(&self, j: usize, x: u8) -> u32 {
        bits::rotl32(self.0[x as usize], 32 - 8 * j as u32)
    }

    ghost mixes = { mixes-T };
}

// T by both tables, with nothing to turn.
#[derive(Drop)]
struct Both<'a>(&'a Table, &'a Wide);

#[tactic(auto, using(crate::proofs::Lookup::lookups))]
impl Mixing for Both<'_> {
    ghost last = { L };

    ghost mixing = { T };

    fn added(&self, j: usize, x: u8) -> u32 {
        let Both(t, w) = self;
        match j {
            0 => t.added(0, x),
            _ => w.0[256 * (j - 1) + x as usize],
        }
    }

    ghost mixes = { mixes-T };
}

// T', for the round keys, by the second half of the table: turned too.
#[derive(Drop)]
struct ForKeys<'a>(&'a Table);

#[tactic(auto, using(crate::proofs::Lookup::lookups))]
impl Mixing for ForKeys<'_> {
    ghost last = { L' };

    ghost mixing = { T' };

    fn added(&self, j: usize, x: u8) -> u32 {
        let ForKeys(t) = self;
        bits::rotl32(t.0[256 + x as usize], 32 - 8 * j as u32)
    }

    ghost mixes = { mixes-T' };
}

// ---- the state between two rounds

// The newest of the four words is m ^ n, and q is what the next round mixes with it: the two words before and its key. So kept, the
// look-ups of a round follow those of the round before after three xors. That also hangs on how the steps are written: with
// (s.n ^ s.q) ^ s.m in a function of its own, the compiler joins m ^ n first, and there is one xor more to wait for.
#[derive(Clone, Copy)]
struct Split {
    x0: u32,
    x1: u32,
    x2: u32,
    m: u32,
    n: u32,
    q: u32,
}

impl Split {
    // Four words as a state; k is the key of the first round.
    #[tactic(auto, using(crate::proofs::Parts::first_joined, crate::proofs::Parts::first_ready))]
    fn new(x: [u32; 4], k: u32) -> Split
        ensures { (joined result ≡ four (words x)) × Ready result (bits_n 32 k) }
    {
        let [x0, x1, x2, m] = x;
        Split {
            x0,
            x1,
            x2,
            m,
            n: 0,
            q: x1 ^ x2 ^ k,
        }
    }

    // One round more, of the cipher or of the key schedule; k is the key of the round after it.
    fn step<M: Mixing>(self, by: &M, k: u32) -> Split
        ensures { Stepped M.mixing self result (bits_n 32 k) }
    {
        let x3 = self.m ^ self.n;
        let b = bits::bytes((self.n ^ self.q) ^ self.m);
        Split {
            x0: self.x1,
            x1: self.x2,
            x2: x3,
            m: self.x0 ^ by.added(0, b[0]) ^ by.added(1, b[1]),
            n: by.added(2, b[2]) ^ by.added(3, b[3]),
            q: self.x2 ^ x3 ^ k,
        }
    }

    // The newest word.
    #[tactic(auto, using(crate::proofs::Parts::newest))]
    fn newest(self) -> u32
        ensures { bits_n 32 result ≡ (joined self).x3 }
    {
        self.m ^ self.n
    }

    // The four words, the newest first.
    #[tactic(auto, using(crate::proofs::Parts::ended))]
    fn reversed(self) -> [u32; 4]
        ensures { four (words result) ≡ R (joined self) }
    {
        [self.m ^ self.n, self.x2, self.x1, self.x0]
    }
}

// ---- blocks

// Four bytes of a part, from place k on, as a word.
#[tactic(auto, using(crate::proofs::Laws::four_bytes))]
fn word_at(s: &[u8], k: usize) -> u32
    requires { (length s.now ≡ 16) × (k ≤ 12) }
    ensures { bits_n 32 result ≡ take 32 (drop (8 * k) (bytes_bits s.now)) }
{
    bits::word(s[k], s[k + 1], s[k + 2], s[k + 3])
}

// The sixteen bytes of a part as four words, the first byte highest.
#[tactic(auto, unfolding(crate::specs::Cipher::quad, crate::specs::Cipher::four, bits::specs::Str::words))]
pub fn load(s: &[u8]) -> [u32; 4]
    requires { length s.now ≡ 16 }
    ensures { four (words result) ≡ quad (bytes_bits s.now) }
{
    [word_at(s, 0), word_at(s, 4), word_at(s, 8), word_at(s, 12)]
}

// Four words as sixteen bytes.
#[tactic(auto, using(crate::proofs::Laws::stored))]
pub fn store(x: [u32; 4]) -> [u8; 16]
    ensures { bytes_bits result ≡ flat (four (words x)) }
{
    let a = bits::bytes(x[0]);
    let b = bits::bytes(x[1]);
    let c = bits::bytes(x[2]);
    let d = bits::bytes(x[3]);
    [
        a[0], a[1], a[2], a[3], b[0], b[1], b[2], b[3], c[0], c[1], c[2], c[3], d[0], d[1], d[2],
        d[3],
    ]
}

// Two blocks in words, by xor.
#[tactic(auto, using(crate::proofs::Laws::four_xor))]
fn xor(x: [u32; 4], y: [u32; 4]) -> [u32; 4]
    ensures { four (words result) ≡ quad (xor_b (flat (four (words x))) (flat (four (words y)))) }
{
    [x[0] ^ y[0], x[1] ^ y[1], x[2] ^ y[2], x[3] ^ y[3]]
}

// All rounds; the last word comes first. After the last round the state is ready for the first key again, which nothing uses: an index
// for it, since `for k in &rk[1..]` with the last step after the loop made a long message 3 % slower.
fn rounds<M: Mixing>(by: &M, rk: &[u32; 32], start: [u32; 4]) -> [u32; 4]
    ensures { four (words result) ≡ R (rounds M.mixing (four (words start)) (words rk.now)) }
{
    let mut s = Split::new(start, rk[0]);
    for turn in 0..32 {
        s = s.step(by, rk[(turn + 1) % 32]);
    }
    s.reversed()
}

// One block enciphered.
#[tactic(auto, unfolding(crate::specs::Cipher::enc))]
pub fn encrypt(t: &Table, rk: [u32; 32], block: [u8; 16]) -> [u8; 16]
    ensures { bytes_bits result ≡ enc (words rk) (bytes_bits block) }
{
    store(rounds(t, &rk, load(&block)))
}

// The next value of a chain: a block, which is a part of a lent message, goes into the words of the value by xor and is enciphered.
// Between the blocks of a long message nothing is put back into bytes.
#[tactic(auto, using(crate::proofs::Inverse::flat_loaded), unfolding(crate::specs::Cipher::enc))]
pub fn absorb(t: &Table, w: &Wide, rk: [u32; 32], h: [u32; 4], s: &[u8]) -> [u32; 4]
    requires { length s.now ≡ 16 }
    ensures { flat (four (words result)) ≡ enc (words rk) (xor_b (bytes_bits s.now) (flat (four (words h)))) }
{
    rounds(&Both(t, w), &rk, xor(load(s), h))
}

// Round keys in the order that deciphers.
pub fn backwards(mut rk: [u32; 32]) -> [u32; 32]
    ensures { result ≡ reverse rk }
{
    rk.reverse();
    rk
}

// One block deciphered.
#[tactic(auto, using(crate::proofs::Laws::words_reverse), unfolding(crate::specs::Cipher::dec))]
pub fn decrypt(t: &Table, rk: [u32; 32], block: [u8; 16]) -> [u8; 16]
    ensures { bytes_bits result ≡ dec (words rk) (bytes_bits block) }
{
    encrypt(t, backwards(rk), block)
}

// ---- keys

// Byte j of the constant CKi, the highest counted as 0.
#[tactic(auto, unfolding(crate::specs::Constants::ck))]
fn constant_byte(i: usize, j: usize) -> u8
    requires { (i < 32) × (j < 4) }
    ensures { result ≡ ck i j }
{
    (7 * (4 * i + j) % 256) as u8
}

// The constant CKi of round i.
#[tactic(auto, unfolding(crate::specs::Constants::CK))]
fn constant(i: usize) -> u32
    requires { i < 32 }
    ensures { bits_n 32 result ≡ CK i }
{
    bits::word(
        constant_byte(i, 0),
        constant_byte(i, 1),
        constant_byte(i, 2),
        constant_byte(i, 3),
    )
}

// FK0 to FK3.
const FK: [u32; 4] = [0xa3b1bac6, 0x56aa3350, 0x677d9197, 0xb27022dc];

// MK xor FK.
#[tactic(auto, using(crate::proofs::Inverse::flat_loaded), unfolding(crate::specs::Constants::fk))]
fn key_start(key: [u8; 16]) -> [u32; 4]
    ensures { four (words result) ≡ quad (xor_b (bytes_bits key) (flat (four (words fk)))) }
{
    xor(load(&key), FK)
}

// The round keys of a key.
pub fn schedule(t: &Table, key: [u8; 16]) -> [u32; 32]
    ensures { words result ≡ round_keys (bytes_bits key) }
{
    let mut s = Split::new(key_start(key), constant(0));
    let mut r = [0u32; 32];
    for (i, word) in r.iter_mut().enumerate() {
        s = s.step(&ForKeys(t), constant((i + 1) % 32));
        *word = s.newest();
    }
    r
}
