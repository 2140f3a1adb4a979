//! A file that no other process uses.

use crate::end_machine::EndMachine;
use crate::ended::{done_at, failure_at};
use crate::{Failure, Fault, file_behind};
use std::fs::{OpenFile, OpenOptions, TryLockError};
use std::io::{self, Read, Write};
use std::thread;
use std::time::Duration;

/// More octets than the file of a lock has: those of a number of 32 bits, and a line end.
const LONGER: usize = 12;

/// How long is waited before a lock is tried again, in milliseconds, and how often it is tried.
const PAUSE: u64 = 20;

const TRIES: u32 = 500;

/// The lock of the file to which this path leads, as of `locked_file`, but while another process
/// holds it, it is waited for, for 10 seconds at most.
///
/// Errors: as of `locked_file`.
pub fn awaited_lock<R: EndMachine>(rt: &R, process: u32, path: &str) -> Result<R::File, Failure> {
    let path = done_at(rt, Fault::Read, path, file_behind(rt, path))?;
    let path = path.as_str();
    for _ in 0..TRIES {
        if let Some(lock) = free_lock(rt, process, path)? {
            return Ok(lock);
        }
        thread::sleep(rt, Duration::from_millis(PAUSE));
    }
    Err(in_use(rt, path))
}

/// The lock of the file to which this path leads, as of `locked_file`.
///
/// Errors: as of `locked_file`.
pub fn lock_file<R: EndMachine>(rt: &R, process: u32, path: &str) -> Result<R::File, Failure> {
    let (_, lock) = locked_file(rt, process, path)?;
    Ok(lock)
}

/// The path of the file to which this one leads, and its lock for the process of this number, which
/// is held until it is dropped. It is one of the file beside it whose name ends in `.lock`, which
/// stays, with the number of the process that held it last. Whatever ends a process, the system
/// gives up its locks.
///
/// Errors: `Read` if a symbolic link can't be read; `Write` if another process holds the lock, it
/// can't be had, or the file of its name is no lock's.
pub fn locked_file<R: EndMachine>(
    rt: &R,
    process: u32,
    path: &str,
) -> Result<(String, R::File), Failure> {
    let path = done_at(rt, Fault::Read, path, file_behind(rt, path))?;
    match free_lock(rt, process, path.as_str())? {
        Some(lock) => Ok((path, lock)),
        None => Err(in_use(rt, path.as_str())),
    }
}

// The lock of the file at this path; none if another process holds it.
//
// Errors: `Write` if it can't be had, or the file of its name is no lock's.
fn free_lock<R: EndMachine>(rt: &R, process: u32, path: &str) -> Result<Option<R::File>, Failure> {
    let name = format!(in rt.alloc(); "{path}.lock")?;
    let name = name.as_str();
    // Once it was read and emptied, what is appended stands at its front.
    let mut options = OpenOptions::new();
    options.read(true).write(true).append(true).create(true);
    let mut file = done_at(rt, Fault::Write, name, options.open(rt, name))?;
    let ended = match rt.try_lock(&file) {
        Ok(()) => match is_lock(&mut file) {
            Ok(true) => {
                write_number(process, &mut file);
                return Ok(Some(file));
            }
            Ok(false) => Err(no_lock(rt, name)),
            Err(error) => Err(failure_at(rt, Fault::Write, name, &error)),
        },
        Err(TryLockError::WouldBlock) => Ok(None),
        Err(TryLockError::Error(error)) => Err(failure_at(rt, Fault::Write, name, &error)),
    };
    drop(file);
    ended
}

// That another process uses the file.
fn in_use(rt: &impl AllocGlobal, path: &str) -> Failure {
    let place = format!(in rt.alloc();
        "{path}: another process uses it, the one whose number stands in {path}.lock"
    );
    Failure::at(Fault::Write, place)
}

// That the file of a lock's name is none.
fn no_lock(rt: &impl AllocGlobal, name: &str) -> Failure {
    let place = format!(in rt.alloc();
        "{name}: it is no lock of lpt, and isn't overwritten: give this file another name"
    );
    Failure::at(Fault::Write, place)
}

// Whether a file has what that of a lock has: nothing, or the number of a process and a line end.
fn is_lock<F: Read>(file: &mut F) -> io::Result<bool> {
    let mut chunk = [0; LONGER];
    let count = file.read(&mut chunk)?;
    Ok(count < LONGER && is_number(&chunk[..count]))
}

// Whether these octets are digits and line ends.
fn is_number(octets: &[u8]) -> bool {
    octets
        .iter()
        .all(|octet| octet.is_ascii_digit() || *octet == b'\n')
}

// Writes the number of a process into the file of a lock, for who asks who holds it.
fn write_number<F: OpenFile + Write>(process: u32, file: &mut F) {
    if file.set_len(0).is_ok() {
        let _ = writeln!(file, "{process}");
    }
}
