// Sixteen bytes by value, of which a block of n bits takes the first n. One function moves bits, `window`; joining, truncation,
// turns and doubling are calls of it. Every function answers every argument but `xor_part`, `after`, `put_part` and `put`, whose
// bytes must be there or have room, and five that take a width n, which sixteen bytes must hold.
#![tactic(auto)]

ghost use Rattle.std.specs.Prelude.{◌≡◌, ◌++◌, ◌+◌, ◌-◌, ◌≤◌, ◌<◌, length, take, drop};
ghost use Rattle.bits.specs.Str.{bits_n, bytes_bits, xor_b, same_b, rotl, rotr, leftmost, rightmost, filled, double, every_second};
ghost use Rattle.block.specs.Block.{front};

// The first k bytes of a part, worked where they lie, and a block, bit by bit; zeros after them.
pub fn xor_part(part: &[u8], k: usize, b: [u8; 16]) -> [u8; 16]
    requires { (k ≤ 16) × (k ≤ length part.now) }
    ensures { bytes_bits result ≡ filled 128 (xor_b (bytes_bits (take k part.now)) (bytes_bits b)) }
{
    let mut r = [0u8; 16];
    for (i, x) in part[..k].iter().enumerate() {
        r[i] = x ^ b[i];
    }
    r
}

// Two blocks, bit by bit.
pub fn xor(a: [u8; 16], b: [u8; 16]) -> [u8; 16]
    ensures { bytes_bits result ≡ xor_b (bytes_bits a) (bytes_bits b) }
{
    xor_part(&a, 16, b)
}

// Two blocks side by side.
pub fn pair(a: [u8; 16], b: [u8; 16]) -> [u8; 32]
    ensures { result ≡ a ++ b }
{
    let mut r = [0u8; 32];
    r[..16].copy_from_slice(&a);
    r[16..].copy_from_slice(&b);
    r
}

// The block that stands s bits in, where a and b stand side by side; b itself where s is 128 or more.
pub fn window(a: [u8; 16], b: [u8; 16], s: usize) -> [u8; 16]
    ensures { bytes_bits result ≡ drop s (bytes_bits a) ++ take s (bytes_bits b) }
{
    let s = s.min(128) as u32;
    (u128::from_be_bytes(a).unbounded_shl(s)
        | u128::from_be_bytes(b).unbounded_shr(128 - s)).to_be_bytes()
}

// A block with the bytes of a part in the place of its own after the first q.
pub fn after(a: [u8; 16], q: usize, part: &[u8]) -> [u8; 16]
    requires { q + length part.now ≤ 16 }
    ensures { result ≡ take q a ++ part.now ++ drop (q + length part.now) a }
{
    let mut r = a;
    r[q..q + part.len()].copy_from_slice(part);
    r
}

// The first n bits of a, and then b from its start. A call of its own: within `join` it makes the compiler take every block apart
// into bytes, also one that stays whole, and a tag of 16 bytes takes 1.04 times as long.
#[inline(never)]
fn joined(a: [u8; 16], n: usize, b: [u8; 16]) -> [u8; 16]
    requires { n ≤ 128 }
    ensures { bytes_bits result ≡ take n (bytes_bits a) ++ take (128 - n) (bytes_bits b) }
{
    window(window([0u8; 16], a, n), b, 128 - n)
}

// The same; a itself where n is 128 or more.
pub fn join(a: [u8; 16], n: usize, b: [u8; 16]) -> [u8; 16]
    ensures { bytes_bits result ≡ take n (bytes_bits a) ++ take (128 - n) (bytes_bits b) }
{
    if 128 <= n { a } else { joined(a, n, b) }
}

// The leftmost m bits, and zeros after them.
pub fn leftmost(b: [u8; 16], m: usize) -> [u8; 16]
    ensures { bytes_bits result ≡ filled 128 (leftmost m (bytes_bits b)) }
{
    join(b, m, [0u8; 16])
}

// The leftmost m of the first n bits, and zeros after them.
pub fn leftmost_of(b: [u8; 16], n: usize, m: usize) -> [u8; 16]
    ensures { bytes_bits result ≡ filled 128 (leftmost m (take n (bytes_bits b))) }
{
    leftmost(b, n.min(m))
}

// The rightmost m of the first n bits moved to the left, and zeros after them.
pub fn rightmost_of(b: [u8; 16], n: usize, m: usize) -> [u8; 16]
    requires { n ≤ 128 }
    ensures { bytes_bits result ≡ filled 128 (rightmost m (take n (bytes_bits b))) }
{
    window(leftmost(b, n), [0u8; 16], n.saturating_sub(m))
}

// The first n bits rotated left by one, and zeros after them: where they are repeated, the first stands after the last.
pub fn turn_left(b: [u8; 16], n: usize) -> [u8; 16]
    requires { (0 < n) × (n ≤ 128) }
    ensures { bytes_bits result ≡ filled 128 (rotl 1 (take n (bytes_bits b))) }
{
    leftmost(window(join(b, n, b), b, 1), n)
}

// The first n bits rotated right by one, and zeros after them: where they are moved to the block's end, the last stands before the
// first of another such block.
pub fn turn_right(b: [u8; 16], n: usize) -> [u8; 16]
    requires { (0 < n) × (n ≤ 128) }
    ensures { bytes_bits result ≡ filled 128 (rotr 1 (take n (bytes_bits b))) }
{
    leftmost(window(window(b, b, n), b, 127), n)
}

// A number in n bits, the lowest bit last, and zeros after it.
pub fn number(x: u32, n: usize) -> [u8; 16]
    requires { n ≤ 128 }
    ensures { bytes_bits result ≡ filled 128 (bits_n n x) }
{
    rightmost_of(u128::from(x).to_be_bytes(), 128, n)
}

// The first n bits doubled, and zeros after them: shifted left by one, and the number p put in by xor where the bit shifted out was 1.
pub fn double(b: [u8; 16], n: usize, p: u32) -> [u8; 16]
    requires { (0 < n) × (n ≤ 128) }
    ensures { bytes_bits result ≡ filled 128 (double p (take n (bytes_bits b))) }
{
    let w = window(leftmost(b, n), [0u8; 16], 1);
    if b[0] < 128 { w } else { xor(w, number(p, n)) }
}

// Every second group of four bits complemented, beginning with the first.
pub fn every_second(b: [u8; 16]) -> [u8; 16]
    ensures { bytes_bits result ≡ every_second (bytes_bits b) }
{
    xor(b, [0xf0; 16])
}

// A block from the front of a part: sixteen bytes, or fewer and zeros.
pub fn front(s: &[u8]) -> [u8; 16]
    ensures { result ≡ front s.now }
{
    after([0u8; 16], 0, &s[..s.len().min(16)])
}

// Whether two parts hold the same bytes, and equally many. Where they are equally long every byte is looked at, which `==` does not.
pub fn equal_bytes(a: &[u8], b: &[u8]) -> bool
    ensures { result ≡ same_b (bytes_bits a.now) (bytes_bits b.now) }
{
    a.len() == b.len() && a.iter().zip(b).fold(0, |all, (x, y)| all | (x ^ y)) == 0
}

// Whether two blocks are the same.
pub fn equal(a: [u8; 16], b: [u8; 16]) -> bool
    ensures { result ≡ same_b (bytes_bits a) (bytes_bits b) }
{
    equal_bytes(&a, &b)
}

// Puts the bytes of a part into the room.
pub fn put_part(part: &[u8], room: &mut [u8])
    requires { length part.now ≤ length room.old }
    ensures { room.new ≡ part.now ++ drop (length part.now) room.old }
{
    room[..part.len()].copy_from_slice(part);
}

// Puts the first n bytes of a block into the room.
pub fn put(block: [u8; 16], n: usize, room: &mut [u8])
    requires { (n ≤ 16) × (n ≤ length room.old) }
    ensures { room.new ≡ take n block ++ drop n room.old }
{
    put_part(&block[..n], room);
}
