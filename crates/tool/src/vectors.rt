// The 36 tags that annex A of GB/T 15852.1 prints, made anew and compared: what a person runs first on a new machine. The printed
// tags have 64 bits. Algorithm 7 gives 63 at most, so its rows have 63 bits of the printed tag and a zero: of 16E02904EFB765B7 the
// first ones, where the text fills its blocks (data 1), of 846FA2A5D83445A9 the last ones, where it does not (data 2). The tags of A.7,
// which are algorithm 6's, must be right under the master there too, with two cipher calls more.
ghost use Rattle.std.specs.Prelude.{◌≤◌, length};

use crate::words::say;
use Data::{One, Two};
use settings::{Agreement, Outcome};
use std::fmt::InlineText;

const TEXT: [u8; 32] = *b"This is the test message for mac";

// The texts of the annex: all of that one, or its first 25 bytes.
#[derive(Clone, Copy)]
enum Data {
    One = 1,
    Two = 2,
}

impl Data {
    fn text(self) -> &'static [u8]
        ensures { length result.now ≤ 32 }
    {
        match self {
            Data::One => &TEXT,
            Data::Two => &TEXT[..25],
        }
    }
}

// A tag as the annex prints it: algorithm, padding, data, and the tag.
#[derive(Clone, Copy)]
struct Row(usize, usize, Data, u64);

static ROWS: [Row; 36] = [
    Row(1, 1, One, 0x16E02904EFB765B7),
    Row(1, 2, One, 0x4B6553AF3C4E2744),
    Row(1, 3, One, 0x71AF7E4553404CBC),
    Row(1, 1, Two, 0xBA89E45FE8ABF242),
    Row(1, 2, Two, 0x421AD1690AA152E2),
    Row(1, 3, Two, 0x6A4A86F5B5E468DA),
    Row(2, 1, One, 0x1E9A71D3BC92DFA7),
    Row(2, 2, One, 0xE423E35599AFD948),
    Row(2, 3, One, 0x4003BA1B6ADC53A8),
    Row(2, 1, Two, 0x4EC3C7FACFAAC607),
    Row(2, 2, Two, 0xF02625CEAD008D4E),
    Row(2, 3, Two, 0xFFD5F1F2E5EDA5CB),
    Row(3, 1, One, 0x2763211B2BCAF719),
    Row(3, 2, One, 0x51E9928C2238330C),
    Row(3, 3, One, 0x7CD48C4242E45575),
    Row(3, 1, Two, 0xE32D99A689C05259),
    Row(3, 2, Two, 0x197247229CE9D7B6),
    Row(3, 3, Two, 0x3C430F1EA43B540C),
    Row(4, 1, One, 0xDD1052A7AFE8999B),
    Row(4, 2, One, 0x7E1A9A5E0EF0947F),
    Row(4, 3, One, 0x28A70D6BCCF74422),
    Row(4, 1, Two, 0xAA9DB3D9651F862B),
    Row(4, 2, Two, 0x949476D35F17261E),
    Row(4, 3, Two, 0xC9D34E16C49AB643),
    Row(5, 4, One, 0x692C437100F3B5EE),
    Row(5, 4, Two, 0x4738A6C760B280FC),
    Row(6, 1, One, 0xB38A96195BAA61FC),
    Row(6, 2, One, 0xA0C465EE5896972F),
    Row(6, 3, One, 0x43050D51C656AE60),
    Row(6, 1, Two, 0x8CF6E64314FEF417),
    Row(6, 2, Two, 0x60DD955ED0CA3D7A),
    Row(6, 3, Two, 0x61E00049E26962A3),
    Row(7, 4, One, 0x16E02904EFB765B6),
    Row(7, 4, Two, 0x08DF454BB0688B52),
    Row(8, 4, One, 0xE40ED79C3149A1C9),
    Row(8, 4, Two, 0xA99D13013E892EE2),
];

// K and K' of A.2 to A.6, A.8 and A.9.
const KEYS: [u8; 32] = *b"\
    \x01\x23\x45\x67\x89\xab\xcd\xef\xfe\xdc\xba\x98\x76\x54\x32\x10\
    \x41\x49\xd2\xad\xed\x94\x56\x68\x1e\xc8\xb5\x11\xd9\xe7\xee\x04";

// K and K' of A.7, as printed there.
const KEYS_OF_A7: [u8; 32] = *b"\
    \x4e\x59\x5b\xf0\x3f\x23\xbd\x10\x32\x9b\xaf\x56\x98\xe8\x98\xec\
    \xb3\x13\x6c\x04\x4e\x95\x48\x2d\x4f\x65\x2e\x69\x4f\x27\x41\xcd";

// K* of A.7, the master that these two are derived from.
const MASTER_OF_A7: [u8; 16] = *b"\x01\x23\x45\x67\x89\xab\xcd\xef\xfe\xdc\xba\x98\x76\x54\x32\x10";

pub(crate) fn run(rt: &impl Print) {
    let right = ROWS.iter().filter(|row| run_row(rt, row)).count();
    let rows = ROWS.len();
    say(rt, format_args!("{right} of {rows} tags are right\n"));
}

// Makes a row's tag anew, and says whether it is the one that is printed.
fn run_row(rt: &impl Print, row: &Row) -> bool {
    let Row(algorithm, padding, data, tag) = *row;
    let agreed = Agreement {
        algorithm,
        padding,
        // algorithms are the standard's numbers
        m: if algorithm == 7 { 63 } else { 64 },
        master: false,
    };
    let made = made(agreed, data).unwrap_or(0);
    let is_right = made == tag;
    let m = agreed.m;
    let data = data as u8;
    // its digits are one piece, its zeros too
    let made = InlineText::<16>::of(format_args!("{made:016X}"));
    let made = made.as_str();
    let judged = if is_right { " ok\n" } else { " wrong\n" };
    say(
        rt,
        format_args!(
            "algorithm {algorithm}, padding {padding}, data {data}, {m} bits: {made}{judged}"
        ),
    );
    is_right
}

// The tag that is made, if it is found right, under a master too where there is one.
fn made(agreed: Agreement, data: Data) -> Option<u64> {
    let keys = keys_of(agreed.algorithm);
    let text = data.text();
    let bits = 8 * text.len();
    let mut made = [0u8; 8];
    tag::make(agreed, keys, text, bits, &mut made).ok()?;
    match tag::check(agreed, keys, text, bits, &made) {
        Ok(Outcome::Yes(calls)) if is_right_under_master(agreed, data, made, calls) => {
            Some(u64::from_be_bytes(made))
        }
        _ => None,
    }
}

// Whether a tag of A.7 is right under the master there too, with two calls more than these. The others have no master, so they pass.
fn is_right_under_master(agreed: Agreement, data: Data, made: [u8; 8], calls: usize) -> bool {
    if agreed.algorithm != 6 {
        return true;
    }
    let derived = Agreement {
        master: true,
        ..agreed
    };
    let text = data.text();
    match tag::check(derived, &MASTER_OF_A7, text, 8 * text.len(), &made) {
        Ok(Outcome::Yes(more)) => more.checked_sub(calls) == Some(2),
        _ => false,
    }
}

fn keys_of(algorithm: usize) -> &'static [u8] {
    let keys = if algorithm == 6 { &KEYS_OF_A7 } else { &KEYS };
    &keys[..keys::bytes_of(false, algorithm).min(32)]
}
