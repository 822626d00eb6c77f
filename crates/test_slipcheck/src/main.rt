// What slipcheck, slipprint and certcheck answer, by the functions that they call themselves, to words of this program's own arguments.
// The first four arguments are words for a program to be called with alone; after them five make a row for slipcheck, then six one for
// certcheck, then eight one for slipprint, each with words of a wrong number before them; then rows with the word master.
#![tactic(auto)]

mod rows;
mod slips;

use rows::Program;
use std::io;
use std::rt::Runtime;

fn main(rt: HostRuntime) -> io::Result<()> {
    // the arguments of this program, whose number none takes
    tool::run::<tool::Slipcheck>(&rt);
    tool::run::<tool::Slipprint>(&rt);
    tool::run::<tool::Certcheck>(&rt);
    checks(&rt)?;
    certificates(&rt)?;
    prints(&rt)?;
    masters(&rt)
}

// slipcheck on the stored keys and slips.
fn checks(rt: &impl Runtime) -> io::Result<()> {
    let program = Program::Slipcheck;
    program.alone(rt)?;
    program.words(rt, 4, 1)?;
    program.words(rt, 6, 3)?;
    program.words(rt, 6, 5)?;
    program.rows(rt, 5, 34, 0)
}

// certcheck on stored certificates.
fn certificates(rt: &impl Runtime) -> io::Result<()> {
    let program = Program::Certcheck;
    program.alone(rt)?;
    program.words(rt, 176, 4)?;
    program.words(rt, 176, 6)?;
    program.rows(rt, 175, 60, 0)
}

// slipprint, and slipcheck on what it printed, under the same agreement.
fn prints(rt: &impl Runtime) -> io::Result<()> {
    let program = Program::Slipprint;
    program.alone(rt)?;
    program.words(rt, 536, 6)?;
    program.words(rt, 536, 8)?;
    program.rows(rt, 535, 104, 0)?;
    slips::compare(rt, "printed", "slip")?;
    slips::compare(rt, "two", "two_keys")?;
    slips::compare(rt, "zeros", "slip")
}

// The word master after M: rows as above, each with this word more or another in its place; and some without it, under the keys that a
// master makes, or on what was sealed under a master.
fn masters(rt: &impl Runtime) -> io::Result<()> {
    Program::Slipcheck.words(rt, 1368, 6)?;
    Program::Certcheck.words(rt, 1501, 7)?;
    Program::Slipprint.words(rt, 1597, 9)?;
    Program::Slipcheck.rows(rt, 1367, 18, 1)?;
    Program::Slipcheck.rows(rt, 1475, 5, 0)?;
    Program::Certcheck.rows(rt, 1500, 12, 1)?;
    Program::Certcheck.rows(rt, 1584, 2, 0)?;
    Program::Slipprint.rows(rt, 1596, 10, 1)?;
    slips::compare(rt, "printed_by_master", "by_master")?;
    slips::compare(rt, "printed_four", "four_by_master")
}
