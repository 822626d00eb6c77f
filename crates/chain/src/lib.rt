// The heart of every tag, shared by one call and sessions and by all ciphers: a chain is begun, fed lent slices of bits, and closed.
// In `back` it is gone through from both ends, to a block that is lost.
// An algorithm and a padding are numbers here too, as the standard names them: every number is answered, in a record that nobody made
// too, and settings are judged elsewhere. The functions are free, over a lent `Keyed`: docs/PROMISES.md names them so.
// A cipher is its number, and a block of its n bits stands in the first n of sixteen bytes: what stands after them is not looked at,
// and what a public function gives out has zeros there. Round keys and the cipher's table are passed through, so that nothing is
// computed twice within a call; the wide table is taken by `through` alone. Each block of a lent message is passed on as the part
// that it is and worked where it lies; bytes are copied only where bits wait, before the first block or after the last.
#![tactic(auto)]

ghost use Rattle.std.specs.Prelude.{◌≡◌, ◌&&◌, not, ◌++◌, ◌+◌, ◌-◌, ◌*◌, ◌%◌, ◌≤◌, ◌<◌, length, take, replicate, eqb};
ghost use Rattle.bits.specs.Choice.{pick};
ghost use Rattle.bits.specs.Str.{bytes_bits, words, xor_b, rotl, rotr, double};
ghost use Rattle.block.specs.Block.{storage, filled_block};
ghost use Rattle.cipher.specs.Ciphers.{cipher_at, table_at, round_keys_at, enc_at, dec_at};
ghost use Rattle.mac.specs.Padding.{method_at, suffix, block_count, complete};
ghost use Rattle.mac.specs.Algorithm.{algorithm_at, row, Keys, step};
ghost use Rattle.mac.specs.Session.{absorb, finish, opened};
ghost use Rattle.chain.specs.Rounds.{rounds_bits, rounds_of, key_blocks};
ghost use Rattle.chain.specs.Chain.{Expanded, Each, width_of, steps_of, held_bits, begun_at, state_of, hold_of, walked, last_state, mark_of};

pub mod back;
mod keyed;

pub use keyed::Keyed;

// The round keys of K, K' and K''.
#[derive(Clone, Copy)]
pub struct Rounds {
    pub first: [u32; 32],
    pub second: [u32; 32],
    pub third: [u32; 32],
}

// A chain value, and the block that waits.
#[derive(Clone, Copy, PartialEq, Eq)]
pub struct Hold {
    pub value: [u8; 16],
    pub held: [u8; 16],
}

// ---- round keys

// A key's round keys where they are used, else zeros.
fn expanded_where(t: &cipher::Table, cipher: usize, on: bool, key: [u8; 16]) -> [u32; 32]
    requires { t.now ≡ table_at cipher }
    ensures { words result ≡ pick on (round_keys_at cipher (take (cipher_at cipher).key_width (bytes_bits key))) (words (replicate 32 0)) }
{
    if on {
        cipher::schedule(t, cipher, key)
    } else {
        [0u32; 32]
    }
}

// The round keys of the keys that an algorithm uses.
pub fn expand(t: &cipher::Table, cipher: usize, algorithm: usize, keys: keys::KeyBlocks) -> Rounds
    requires { t.now ≡ table_at cipher }
    ensures { rounds_bits result ≡ rounds_of cipher algorithm (key_blocks cipher keys) }
{
    let row = mac::row_of(algorithm);
    let first = cipher::schedule(t, cipher, keys.first);
    let second = expanded_where(t, cipher, row.two, keys.second);
    let third = expanded_where(t, cipher, row.third, keys.third);
    Rounds {
        first,
        second,
        third,
    }
}

// ---- one block

// Enciphered: the first bits of the block, in the first bits of the answer.
fn enc(k: &Keyed, rk: [u32; 32], b: [u8; 16]) -> [u8; 16]
    ensures { take (width_of k.now) (bytes_bits result) ≡ enc_at k.now.cipher (words rk) (take (width_of k.now) (bytes_bits b)) }
{
    cipher::encrypt(k.table, k.cipher, rk, b)
}

// Deciphered.
fn dec(k: &Keyed, rk: [u32; 32], b: [u8; 16]) -> [u8; 16]
    ensures { take (width_of k.now) (bytes_bits result) ≡ dec_at k.now.cipher (words rk) (take (width_of k.now) (bytes_bits b)) }
{
    cipher::decrypt(k.table, k.cipher, rk, b)
}

// ---- blocks that are not the last

// Whether a block goes through twice: the first where K'' is used.
fn twice(algorithm: usize, begun: bool) -> bool
    ensures { result ≡ (row (algorithm_at algorithm)).third && not begun }
{
    mac::row_of(algorithm).third && !begun
}

// A block that is not the last goes through, from where it lies.
fn advance(k: &Keyed, begun: bool, h: [u8; 16], part: &[u8]) -> [u8; 16]
    requires { width_of k.now ≤ 8 * length part.now }
    ensures { Each k.now (λ K. take (width_of k.now) (bytes_bits result) ≡ (step (steps_of k.now K) begun (xor_b (take (width_of k.now) (bytes_bits part.now)) (take (width_of k.now) (bytes_bits h)))).out) }
{
    let first = k.rounds.first;
    let size = cipher::width(k.cipher) / 8;
    let x = enc(k, first, block::xor_part(part, size, h));
    if twice(k.settings.algorithm, begun) {
        let third = k.rounds.third;
        return enc(k, third, x);
    }
    x
}

// Which of so many blocks goes next where so many are left: they go from the first to the last, or backwards.
fn next_block(backwards: bool, blocks: usize, left: usize) -> usize
    requires { (0 < left) × (left ≤ blocks) }
    ensures { result ≡ pick backwards (left - 1) (blocks - left) }
{
    if backwards { left - 1 } else { blocks - left }
}

// Whole blocks, each worked where it lies, from the first to the last or backwards. The wide table is taken where there are any. Both
// ways are one loop, so that what it calls stands in it alone, and the compiler puts it there; by index, since they go either way.
fn through(
    k: &Keyed,
    rk: [u32; 32],
    start: [u8; 16],
    bytes: &[u8],
    blocks: usize,
    backwards: bool,
) -> [u8; 16]
    requires { blocks * width_of k.now ≤ 8 * length bytes.now }
    ensures { take (width_of k.now) (bytes_bits result) ≡ walked backwards (width_of k.now) (enc_at k.now.cipher (words rk)) blocks (take (width_of k.now) (bytes_bits start)) (bytes_bits bytes.now) }
{
    if blocks == 0 {
        return start;
    }
    let w = cipher::wide(k.cipher);
    let size = cipher::width(k.cipher) / 8;
    let mut h = cipher::load(k.cipher, start);
    for i in 0..blocks {
        let at = next_block(backwards, blocks, blocks - i) * size;
        let next = cipher::absorb(k.table, &w, k.cipher, rk, h, &bytes[at..at + size]);
        h = next;
    }
    cipher::store(k.cipher, h)
}

// How many bits wait after so many in all: a full block waits too.
pub fn held_bits(cipher: usize, total: usize) -> usize
    ensures { result ≡ held_bits (cipher_at cipher).n total }
{
    let n = cipher::width(cipher);
    if total == 0 {
        return 0;
    }
    (total - 1) % n + 1
}

#[tactic(auto, unfolding(crate::specs::Chain::begun_at))]
fn begun_at(cipher: usize, padding: usize, total: usize) -> bool
    ensures { result ≡ begun_at (cipher_at cipher).n padding total }
{
    padding == 3 || cipher::width(cipher) < total
}

// The first block goes through: the part itself where nothing waits, else the block that waits with the part after its bits.
fn first_through(k: &Keyed, hold: Hold, total: usize, waits: usize, part: &[u8]) -> [u8; 16]
    requires { (waits + 8 * length part.now ≡ width_of k.now) }
    ensures { Each k.now (λ K. take (width_of k.now) (bytes_bits result) ≡ (step (steps_of k.now K) (begun_at (width_of k.now) k.now.settings.padding total) (xor_b (take waits (bytes_bits hold.held) ++ bytes_bits part.now) (take (width_of k.now) (bytes_bits hold.value)))).out) }
{
    let value = hold.value;
    let held = hold.held;
    let begun = begun_at(k.cipher, k.settings.padding, total);
    if waits == 0 {
        return advance(k, begun, value, part);
    }
    let b = block::after(held, waits / 8, part);
    advance(k, begun, value, &b)
}

// Bits after others that wait, then zeros: the part that they are is copied, for it waits in a hold, or the padding stands after it.
fn waiting_block(held: [u8; 16], waits: usize, bytes: &[u8], bits: usize) -> [u8; 16]
    requires { (waits + bits ≤ storage) × (bits ≤ 8 * length bytes.now) × (0 < bits → waits % 8 ≡ 0) }
    ensures { bytes_bits result ≡ filled_block (take waits (bytes_bits held) ++ take bits (bytes_bits bytes.now)) }
{
    let size = (bits + 7) / 8;
    let b = block::after(held, waits / 8, &bytes[..size]);
    block::leftmost(b, waits + bits)
}

// Bits come in after total others: each block goes through that a bit stands after, and the rest waits.
pub fn feed(k: &Keyed, hold: Hold, total: usize, bytes: &[u8], bits: usize) -> Hold
    requires { Expanded k.now × (bits ≤ 8 * length bytes.now) × (0 < bits → total % 8 ≡ 0) }
    ensures { Each k.now (λ K. result ≡ hold_of (absorb (width_of k.now) (steps_of k.now K) (state_of k.now total hold) (take bits (bytes_bits bytes.now)))) }
{
    let value = hold.value;
    let held = hold.held;
    let n = cipher::width(k.cipher);
    let waits = held_bits(k.cipher, total);
    let space = n - waits;
    if bits <= space {
        return Hold {
            value: block::leftmost(value, n),
            held: waiting_block(held, waits, bytes, bits),
        };
    }
    let edge = space / 8;
    let h = first_through(k, hold, total, waits, &bytes[..edge]);
    let rest = &bytes[edge..];
    let beyond = bits - space;
    let blocks = (beyond - 1) / n;
    let done = blocks * n;
    let first = k.rounds.first;
    let c = through(k, first, h, rest, blocks, false);
    Hold {
        value: block::leftmost(c, n),
        held: waiting_block([0u8; 16], 0, &rest[done / 8..], beyond - done),
    }
}

// ---- the beginning

// H0.
fn start_value(k: &Keyed) -> [u8; 16]
    ensures { Each k.now (λ K. take (width_of k.now) (bytes_bits result) ≡ (steps_of k.now K).start) }
{
    if k.settings.algorithm == 8 {
        let first = k.rounds.first;
        return enc(k, first, [0u8; 16]);
    }
    [0u8; 16]
}

// Where the message begins: under padding 3 the block L has gone through, and nothing waits.
pub fn begin(k: &Keyed, declared: u32) -> Hold
    requires { Expanded k.now }
    ensures { Each k.now (λ K. result ≡ hold_of (opened (cipher_at k.now.cipher) (algorithm_at k.now.settings.algorithm) (method_at k.now.settings.padding) K declared)) }
{
    let n = cipher::width(k.cipher);
    let h = start_value(k);
    if k.settings.padding == 3 {
        let b = block::number(declared, n);
        return Hold {
            value: block::leftmost(advance(k, false, h, &b), n),
            held: [0u8; 16],
        };
    }
    Hold {
        value: block::leftmost(h, n),
        held: [0u8; 16],
    }
}

// ---- the end

// K1 where the message is complete, else K2, of the enciphered zeros.
fn mask(cipher: usize, s: [u8; 16], complete: bool) -> [u8; 16]
    ensures { take (cipher_at cipher).n (bytes_bits result) ≡ pick complete (double (cipher_at cipher).poly (take (cipher_at cipher).n (bytes_bits s))) (double (cipher_at cipher).poly (double (cipher_at cipher).poly (take (cipher_at cipher).n (bytes_bits s)))) }
{
    let n = cipher::width(cipher);
    let p = cipher::poly(cipher);
    let k1 = block::double(s, n, p);
    if complete {
        k1
    } else {
        block::double(k1, n, p)
    }
}

// The turn of algorithm 8.
fn turned(cipher: usize, z: [u8; 16], complete: bool) -> [u8; 16]
    ensures { take (cipher_at cipher).n (bytes_bits result) ≡ pick complete (rotr 1 (take (cipher_at cipher).n (bytes_bits z))) (rotl 1 (take (cipher_at cipher).n (bytes_bits z))) }
{
    let n = cipher::width(cipher);
    if complete {
        block::turn_right(z, n)
    } else {
        block::turn_left(z, n)
    }
}

// The last step of an algorithm.
fn last(k: &Keyed, complete: bool, z: [u8; 16]) -> [u8; 16]
    ensures { Each k.now (λ K. take (width_of k.now) (bytes_bits result) ≡ ((steps_of k.now K).last complete (take (width_of k.now) (bytes_bits z))).out) }
{
    let first = k.rounds.first;
    let second = k.rounds.second;
    match k.settings.algorithm {
        2 | 4 => enc(k, second, enc(k, first, z)),
        3 => enc(k, first, dec(k, second, enc(k, first, z))),
        5 => {
            let s = enc(k, first, [0u8; 16]);
            enc(k, first, block::xor(z, mask(k.cipher, s, complete)))
        }
        6 => enc(k, second, z),
        8 => enc(k, first, turned(k.cipher, z, complete)),
        _ => enc(k, first, z),
    }
}

// The tag's m bits of G, and zeros after them.
fn cut(k: &Keyed, complete: bool, g: [u8; 16]) -> [u8; 16]
    ensures { (K : Keys) → bytes_bits result ≡ filled_block ((steps_of k.now K).cut complete k.now.settings.m (take (width_of k.now) (bytes_bits g))) }
{
    let n = cipher::width(k.cipher);
    let m = k.settings.m;
    if k.settings.algorithm != 7 {
        return block::leftmost_of(g, n, m);
    }
    if complete {
        return block::leftmost_of(g, n, m);
    }
    block::rightmost_of(g, n, m)
}

// The tag, where b is the last block and h the chain value before it.
fn ended(k: &Keyed, complete: bool, h: [u8; 16], b: [u8; 16]) -> [u8; 16]
    ensures { Each k.now (λ K. bytes_bits result ≡ filled_block (finish (steps_of k.now K) complete k.now.settings.m (last_state (width_of k.now) h b)).out) }
{
    cut(k, complete, last(k, complete, block::xor(b, h)))
}

// What the padding puts after a message: zeros, or a one and zeros.
fn mark(padding: usize) -> [u8; 16]
    ensures { bytes_bits result ≡ mark_of (method_at padding) }
{
    match padding {
        2 | 4 => [0x80, 0, 0, 0, 0, 0, 0, 0, 0, 0, 0, 0, 0, 0, 0, 0],
        _ => [0u8; 16],
    }
}

// Whether the padding begins a new block: only method 2's does, after a full one.
fn spills(padding: usize, waits: usize, n: usize) -> bool
    ensures { result ≡ eqb padding 2 && eqb waits n }
{
    padding == 2 && waits == n
}

// The end of a message of so many bits: the tag's m bits, and zeros after them.
pub fn close(k: &Keyed, hold: Hold, total: usize) -> [u8; 16]
    requires { Expanded k.now }
    ensures { Each k.now (λ K. bytes_bits result ≡ filled_block (finish (steps_of k.now K) (complete (width_of k.now) total) k.now.settings.m (absorb (width_of k.now) (steps_of k.now K) (state_of k.now total hold) (suffix (method_at k.now.settings.padding) (width_of k.now) total))).out) }
{
    let value = hold.value;
    let held = hold.held;
    let padding = k.settings.padding;
    let p = mark(padding);
    let n = cipher::width(k.cipher);
    let waits = held_bits(k.cipher, total);
    if spills(padding, waits, n) {
        let begun = begun_at(k.cipher, padding, total);
        let h = advance(k, begun, value, &held);
        return ended(k, true, h, p);
    }
    let b = block::join(held, waits, p);
    ended(k, waits == n, value, b)
}

// ---- calls

// How many cipher calls the tag of so many bits takes, with those that were made for its keys.
pub fn calls(cipher: usize, s: settings::Settings, unpacking: u8, bits: usize) -> usize
    ensures { result ≡ unpacking + (block_count (method_at s.padding) (cipher_at cipher).n bits + (row (algorithm_at s.algorithm)).further) }
{
    let row = mac::row_of(s.algorithm);
    unpacking as usize + (mac::block_count(cipher, s.padding, bits) + row.further)
}
