// The two examples of GB/T 32907-2016, run: one block enciphered once and a million times, and deciphered as often.
#![tactic(auto)]

use std::io;

const BLOCK: [u8; 16] = *b"\x01\x23\x45\x67\x89\xab\xcd\xef\xfe\xdc\xba\x98\x76\x54\x32\x10";

// Each value is printed as soon as it is worked out.
fn main(rt: HostRuntime) -> io::Result<()> {
    let t = sm4::table();
    let rk = sm4::schedule(&t, BLOCK);
    let once = sm4::encrypt(&t, rk, BLOCK);
    line(&rt, "enciphered once:               ", once)?;
    let back = sm4::decrypt(&t, rk, once);
    line(&rt, "deciphered once:               ", back)?;
    let million = (0..1000000).fold(BLOCK, |block, _| sm4::encrypt(&t, rk, block));
    line(&rt, "enciphered a million times:    ", million)?;
    let million_back = (0..1000000).fold(million, |block, _| sm4::decrypt(&t, rk, block));
    line(&rt, "deciphered a million times:    ", million_back)
}

fn line(rt: &impl Print, what: &str, block: [u8; 16]) -> io::Result<()> {
    println!(rt; "{what}{:032x}", u128::from_be_bytes(block))
}
