// The files that slipprint makes: slipcheck on each, and the bytes of some compared with those of stored slips.
ghost use Rattle.std.specs.Prelude.{◌≤◌, IfOk};

use crate::rows;
use std::io::Read;
use std::rt::Runtime;
use std::{fs, io};
use tool::Words;

// slipcheck on the file that the row at these places was to make, with the row's keys and its agreement.
pub(crate) fn check_made(rt: &impl Runtime, first: usize, end: usize) -> io::Result<()>
    requires { first ≤ 4096 }
{
    rt.write_all(b"--\n")?;
    let mut typed = rows::open_keys(rt, first)?;
    let mut room = [0u8; 4096];
    let name = rows::word(rt, first + 1, &mut room);
    tool::answer_named(rt, &mut typed, name, Words::new(rt, first + 5..end));
    Ok(())
}

// What a slip's file can have, and one byte more.
const MOST: usize = 76;

// Whether two slips' files have the same bytes.
pub(crate) fn compare(rt: &impl Runtime, name: &str, other: &str) -> io::Result<()> {
    let is_same = read(rt, name)? == read(rt, other)?;
    let judged = if is_same { "are the same" } else { "differ" };
    println!(rt; "== {name} and {other} {judged}")
}

// The bytes of a file, as many as there are places, with zeros after them; and how many places are left.
fn read(rt: &impl Runtime, name: &str) -> io::Result<([u8; MOST], usize)>
    ensures { IfOk result (λ r. r.1 ≤ 76) }
{
    let mut file = fs::open(rt, name)?;
    let mut bytes = [0u8; MOST];
    let mut rest = bytes.as_mut_slice();
    for _ in 0..MOST {
        match file.read(rest)? {
            0 => break,
            n => rest = &mut rest[n..],
        }
    }
    let left = rest.len().min(MOST);
    Ok((bytes, left))
}
