//! What an end reaches of the machine that it runs on.

use crate::{Failure, Machine, write_for_good};
use std::fs::{File, OpenOptions, TryLockError};
use std::io::{self, Read, Write};
use std::rt::{Clock, Files};

/// Files that last, whatever ends the process or the machine.
pub trait LastingFiles {
    /// Writes these octets to the file at a path: whole, or not at all.
    ///
    /// Errors: `Write`; `Memory`.
    fn write_for_good(&self, path: &str, octets: &[u8]) -> Result<(), Failure>;
}

/// The machine that an end runs on, or what stands in for it: beside what each command reaches,
/// files that last or are locked, and standard input that a thread of its own can read.
pub trait EndMachine: Machine + LastingFiles {
    /// Standard input, in the hands of one thread.
    type Standard: Read + Drop + Send + 'static;

    /// Standard input.
    fn standard_input(&self) -> Self::Standard;

    /// What requests are written to, in the hands of one thread.
    type Uplink: Write + Drop + Send + 'static;

    /// What requests are written to: the file at a path, or standard output.
    ///
    /// Errors: those of opening the file.
    fn uplink(&self, path: Option<&str>) -> io::Result<Self::Uplink>;

    /// Locks a file, without waiting: the lock is held until the file is dropped.
    ///
    /// Errors: `WouldBlock` if another process holds it.
    fn try_lock(&self, file: &Self::File) -> Result<(), TryLockError>;
}

/// What an end reaches of the machine once it has begun, also in a thread of its own. It has no
/// associated type: the borrow checker's proof doesn't cover a thread that rests on a bound whose
/// types have bounds, as `Files` has.
pub trait PlainMachine: LastingFiles + Print + Eprint + Clock + AllocGlobal + Copy + Drop {}

impl<R: LastingFiles + Print + Eprint + Clock + AllocGlobal + Copy + Drop> PlainMachine for R {}

// Each machine with the files of the system.
impl<R: Files<File = File> + AllocGlobal> LastingFiles for R {
    fn write_for_good(&self, path: &str, octets: &[u8]) -> Result<(), Failure> {
        write_for_good(self, path, octets)
    }
}

/// Standard output, or a file, to which requests are written.
#[derive(Drop)]
pub enum Uplink<R> {
    /// The standard output of this machine.
    Standard(R),
    /// This file.
    File(File),
}

impl<R: Print> Write for Uplink<R> {
    fn write(&mut self, buf: &[u8]) -> io::Result<usize> {
        match self {
            Uplink::Standard(rt) => rt.write_some(buf),
            Uplink::File(file) => file.write(buf),
        }
    }

    // Nothing is kept back.
    fn flush(&mut self) -> io::Result<()> {
        Ok(())
    }
}

impl<R: Machine + Files<File = File> + Send + 'static> EndMachine for R
where
    R::Reader: Send + 'static,
{
    type Standard = R::Reader;

    type Uplink = Uplink<R>;

    fn uplink(&self, path: Option<&str>) -> io::Result<Uplink<R>> {
        let Some(path) = path else {
            return Ok(Uplink::Standard(*self));
        };
        let mut options = OpenOptions::new();
        options.write(true);
        Ok(Uplink::File(options.open(self, path)?))
    }

    fn standard_input(&self) -> R::Reader {
        self.reader()
    }

    fn try_lock(&self, file: &File) -> Result<(), TryLockError> {
        file.try_lock()
    }
}
