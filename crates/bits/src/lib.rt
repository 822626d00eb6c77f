// Words and bytes: every contract is told in bits, which bits of the arguments stand where in the result. And the first of several
// tests, by which a list of refusals is answered where each of its tests answers every input.
#![tactic(auto)]

ghost use Rattle.std.specs.Prelude.{◌≡◌, ◌∷◌, [], ◌++◌, ◌-◌, ◌%◌, ◌≤◌, take, drop};
ghost use Rattle.bits.specs.Choice.{first_fault, first_of, faults};
ghost use Rattle.bits.specs.Str.{bits_n, bytes_bits, rotl};

// A word rotated left by r bits, r counted modulo 32. (By shifts, the form that document 01 asks for where a round rotates.)
pub fn rotl32(x: u32, r: u32) -> u32
    ensures { bits_n 32 result ≡ rotl (r % 32) (bits_n 32 x) }
{
    let k = r % 32;
    if k == 0 {
        x
    } else {
        (x << k) | (x >> (32 - k))
    }
}

// The word whose bytes are a, b, c and d, the first highest.
pub fn word(a: u8, b: u8, c: u8, d: u8) -> u32
    ensures { bits_n 32 result ≡ bytes_bits (a ∷ b ∷ c ∷ d ∷ []) }
{
    u32::from_be_bytes([a, b, c, d])
}

// The bytes of a word, the highest first.
pub fn bytes(x: u32) -> [u8; 4]
    ensures { bytes_bits result ≡ bits_n 32 x }
{
    // Shifts: of to_be_bytes the compiler makes a swap of the word, for which every round of the cipher waits, 1.06 times as long.
    [
        (x >> 24) as u8,
        (x >> 16 & 0xff) as u8,
        (x >> 8 & 0xff) as u8,
        (x & 0xff) as u8,
    ]
}

// The byte that stands s bits in, where x and y stand side by side.
pub fn funnel(x: u8, y: u8, s: u32) -> u8
    ensures { bits_n 8 result ≡ drop s (bits_n 8 x) ++ take s (bits_n 8 y) }
{
    x.unbounded_shl(s) | y.unbounded_shr(8u32.saturating_sub(s))
}

// The first test that says yes, as a refusal with what stands beside it; Ok where none does.
pub fn first_fault<T: Copy>(tests: &[(bool, T)]) -> Result<(), T>
    ensures { result ≡ first_fault tests.now }
{
    for &(there, fault) in tests {
        if there {
            return Err(fault);
        }
    }
    Ok(())
}

// The number of the first test that says yes; 0 where none does. A test without a number is not looked at. (Of two lists of any
// lengths, which `first_fault` is not told; by index, for the rule is of places.)
pub fn first(numbers: &[u8], there: &[bool]) -> usize
    ensures { result ≡ first_of (faults numbers.now there.now) }
{
    for i in 0..there.len() {
        if numbers.len() <= i {
            return 0;
        }
        if there[i] {
            return numbers[i] as usize;
        }
    }
    0
}
