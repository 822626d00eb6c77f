// The keys: the bytes as they were given, the three keys in use that are made of them, by derivation where a master is in use, and the
// tests on them, refusals 4 and 5. Bytes that are missing count as zero, so every slice is answered.
#![tactic(auto)]

ghost use Rattle.std.specs.Prelude.{◌≡◌, ◌&&◌, drop};
ghost use Rattle.bits.specs.Choice.{pick};
ghost use Rattle.bits.specs.Str.{bytes_bits, same_b};
ghost use Rattle.block.specs.Block.{front};
ghost use Rattle.cipher.specs.Ciphers.{cipher_at};
ghost use Rattle.mac.specs.Run.{Run};
ghost use Rattle.mac.specs.declared.Row.{Row};
ghost use Rattle.mac.specs.Algorithm.{algorithm_at, row, keys};
ghost use Rattle.mac.specs.Derive.{derived};
ghost use Rattle.keys.specs.Given.{given_of, unpack_of, key_bits, Unpacks};
ghost use Rattle.keys.specs.Faults.{key_bytes, master_wrong, key_bytes_wrong, keys_same};

// K, K' and K''.
#[derive(Clone, Copy)]
pub struct KeyBlocks {
    pub first: [u8; 16],
    pub second: [u8; 16],
    pub third: [u8; 16],
}

// The keys in use, and the cipher calls that were made for them: a byte, so that no sum with it can wrap.
#[derive(Clone, Copy)]
pub struct Unpacked {
    pub keys: KeyBlocks,
    pub calls: u8,
}

// ---- the bytes as given

// The bytes of the second key, zeros where there is none.
fn second_given(given: &[u8]) -> [u8; 16]
    ensures { result ≡ front (drop 16 given.now) }
{
    block::front(&given[given.len().min(16)..])
}

// The bytes as a record keeps them: room for two keys, zeros where fewer were given.
#[tactic(auto, unfolding(crate::specs::Given::given_of))]
pub fn kept(given: &[u8]) -> [u8; 32]
    ensures { result ≡ given_of given.now }
{
    block::pair(block::front(given), second_given(given))
}

// ---- the keys in use

// The two keys that a master makes.
fn derived(master: [u8; 16]) -> ([u8; 16], [u8; 16])
    ensures { (bytes_bits result.0, bytes_bits result.1) ≡ (derived (cipher_at 1) (bytes_bits master)).out }
{
    let n = cipher::width(cipher::SM4);
    let t = cipher::table(cipher::SM4);
    let rk = cipher::schedule(&t, cipher::SM4, master);
    let first = cipher::encrypt(&t, cipher::SM4, rk, block::number(1, n));
    let second = cipher::encrypt(&t, cipher::SM4, rk, block::number(2, n));
    (first, second)
}

// K and K', and K'' made from K'.
#[tactic(auto, unfolding(crate::specs::Given::key_bits))]
fn of_two(first: [u8; 16], second: [u8; 16]) -> KeyBlocks
    ensures { key_bits result ≡ keys (bytes_bits first) (bytes_bits second) }
{
    KeyBlocks {
        first,
        second,
        third: block::every_second(second),
    }
}

// The keys in use of the bytes as given: K and K' themselves, or those of a master; and the calls made for it.
pub fn unpack(master: bool, algorithm: usize, given: &[u8]) -> Unpacked
    ensures { Unpacks result (unpack_of master algorithm given.now) }
{
    let first = block::front(given);
    let second = second_given(given);
    if master {
        let row = mac::row_of(algorithm);
        let keys = if row.third {
            let (second, third) = derived(second);
            KeyBlocks {
                first,
                second,
                third,
            }
        } else {
            let (first, second) = derived(first);
            of_two(first, second)
        };
        Unpacked { keys, calls: 2 }
    } else {
        Unpacked {
            keys: of_two(first, second),
            calls: 0,
        }
    }
}

// ---- refusals 4 and 5

// Whether two keys are given, under a master or without.
#[tactic(auto, unfolding(bits::specs::Choice::pick))]
fn two_given(master: bool, algorithm: usize) -> bool
    ensures { result ≡ pick master (row (algorithm_at algorithm)).third (row (algorithm_at algorithm)).two }
{
    let row = mac::row_of(algorithm);
    if master { row.third } else { row.two }
}

// How many bytes an algorithm takes.
#[tactic(auto, unfolding(bits::specs::Choice::pick, crate::specs::Faults::key_bytes))]
pub fn bytes_of(master: bool, algorithm: usize) -> usize
    ensures { result ≡ key_bytes master algorithm }
{
    if two_given(master, algorithm) { 32 } else { 16 }
}

// Whether a master is in use with an algorithm that takes none.
#[tactic(auto, unfolding(crate::specs::Faults::master_wrong))]
fn master_wrong(master: bool, algorithm: usize) -> bool
    ensures { result ≡ master_wrong master algorithm }
{
    let row = mac::row_of(algorithm);
    master && !row.master
}

#[tactic(auto, unfolding(crate::specs::Faults::key_bytes_wrong))]
pub fn bytes_wrong(master: bool, algorithm: usize, given: usize) -> bool
    ensures { result ≡ key_bytes_wrong master algorithm given }
{
    master_wrong(master, algorithm) || given != bytes_of(master, algorithm)
}

#[tactic(auto, unfolding(crate::specs::Faults::keys_same, crate::specs::Given::key_bits))]
pub fn same(algorithm: usize, keys: KeyBlocks) -> bool
    ensures { result ≡ keys_same algorithm (key_bits keys) }
{
    let row = mac::row_of(algorithm);
    row.differ && block::equal(keys.first, keys.second)
        || row.third && block::equal(keys.first, keys.third)
}
