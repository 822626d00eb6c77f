// A slip written into a new file. A file that is there stays as it was, and one that cannot be written whole is removed again.
use crate::faults::{Attempt, Failure, Undone};
use std::fs;
use std::fs::{Files, OpenFile, OpenOptions};
use std::io::Write;

pub(crate) fn write(rt: &impl Files, path: &str, slip: &[u8]) -> Result<(), Failure> {
    let mut file = OpenOptions::new()
        .write(true)
        .create_new(true)
        .open(rt, path)
        .map_err(|error| Attempt::Make.failed(error))?;
    let filled = fill(&mut file, slip);
    drop(file);
    match filled {
        Ok(()) => Ok(()),
        Err(undone) => Err(match fs::remove_file(rt, path) {
            Ok(()) => Failure::Removed(undone),
            Err(_) => Failure::Left(undone),
        }),
    }
}

// Writes the slip. Closing the file tells nothing here, so what the system has to tell of it is asked for before.
fn fill(file: &mut (impl Write + OpenFile), slip: &[u8]) -> Result<(), Undone> {
    file.write_all(slip)
        .map_err(|error| Attempt::Write.failed(error))?;
    file.sync_all()
        .map_err(|error| Attempt::Close.failed(error))
}
