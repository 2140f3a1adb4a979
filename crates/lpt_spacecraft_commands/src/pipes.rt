//! Octets that go from one thread of the process to another.

use crossbeam_channel::{Receiver, SendTimeoutError, Sender, bounded, unbounded};
use std::alloc::{AllocError, Global};
use std::io::{self, ErrorKind, Read, Write};
use std::sync::Wait;
use std::time::{Clock, Duration};

/// So many writes at most are held that weren't read, in a pipe whose writer waits.
const HELD: usize = 16;

/// What becomes of octets that nobody reads any more.
#[derive(Clone, Copy)]
pub enum Unread {
    /// A write fails.
    Fails,
    /// They are dropped.
    Dropped,
}

/// The end at which octets are written.
#[derive(Drop)]
pub struct PipeWriter<T: Wait + Drop> {
    waits: T,
    alloc: Global,
    to: Sender<Vec<u8>>,
    unread: Unread,
    // How long a write waits at most, if that is limited.
    limit: Option<Duration>,
}

/// The end at which they are read. It is at its end once the other is gone.
#[derive(Drop)]
pub struct PipeReader<T: Wait + Drop> {
    waits: T,
    from: Receiver<Vec<u8>>,
    // What was received last, and how much of it was read.
    held: Vec<u8>,
    read: usize,
}

/// A pipe that holds as much as is written. The only error is out of memory.
pub fn pipe<T: Wait + Copy + Drop>(
    alloc: Global,
    waits: &T,
    unread: Unread,
) -> Result<(PipeWriter<T>, PipeReader<T>), AllocError> {
    let ends = unbounded(alloc)?;
    Ok(pipe_of(alloc, waits, unread, None, ends))
}

/// A pipe whose writer waits while its reader is behind: if there is a limit, for no longer than
/// that, and then the write fails as `TimedOut`. The only error is out of memory.
pub fn short_pipe<T: Wait + Copy + Drop>(
    alloc: Global,
    waits: &T,
    limit: Option<Duration>,
) -> Result<(PipeWriter<T>, PipeReader<T>), AllocError> {
    let ends = bounded(alloc, HELD)?;
    Ok(pipe_of(alloc, waits, Unread::Fails, limit, ends))
}

// The two ends over this channel.
fn pipe_of<T: Wait + Copy + Drop>(
    alloc: Global,
    waits: &T,
    unread: Unread,
    limit: Option<Duration>,
    (to, from): (Sender<Vec<u8>>, Receiver<Vec<u8>>),
) -> (PipeWriter<T>, PipeReader<T>) {
    let writer = PipeWriter {
        waits: *waits,
        alloc,
        to,
        unread,
        limit,
    };
    let reader = PipeReader {
        waits: *waits,
        from,
        held: Vec::new(alloc),
        read: 0,
    };
    (writer, reader)
}

// Why octets weren't handed over.
#[derive(Clone, Copy)]
enum Kept {
    // Nobody reads them any more.
    Unread,
    // The reader was too far behind for too long.
    Late,
}

impl<T: Wait + Clock + Drop> PipeWriter<T> {
    // Hands these octets over.
    fn hand(&self, octets: Vec<u8>) -> Result<(), Kept> {
        let Some(limit) = self.limit else {
            return match self.to.send(&self.waits, octets) {
                Ok(()) => Ok(()),
                Err(_) => Err(Kept::Unread),
            };
        };
        match self.to.send_timeout(&self.waits, octets, limit) {
            Ok(()) => Ok(()),
            Err(SendTimeoutError::Timeout(_)) => Err(Kept::Late),
            Err(_) => Err(Kept::Unread),
        }
    }
}

impl<T: Wait + Clock + Drop> Write for PipeWriter<T> {
    fn write(&mut self, buf: &[u8]) -> io::Result<usize> {
        if buf.is_empty() {
            return Ok(0);
        }
        let Ok(octets) = Vec::from_slice(self.alloc, buf) else {
            return Err(io::Error::from(ErrorKind::OutOfMemory));
        };
        match (self.hand(octets), self.unread) {
            (Ok(()), _) | (Err(Kept::Unread), Unread::Dropped) => Ok(buf.len()),
            (Err(Kept::Unread), Unread::Fails) => Err(io::Error::from(ErrorKind::BrokenPipe)),
            (Err(Kept::Late), _) => Err(io::Error::from(ErrorKind::TimedOut)),
        }
    }

    fn flush(&mut self) -> io::Result<()> {
        Ok(())
    }
}

impl<T: Wait + Drop> Read for PipeReader<T> {
    fn read(&mut self, buf: &mut [u8]) -> io::Result<usize> {
        if buf.is_empty() {
            return Ok(0);
        }
        if self.read >= self.held.len() {
            let Ok(octets) = self.from.recv(&self.waits) else {
                return Ok(0);
            };
            self.held = octets;
            self.read = 0;
        }
        let (_, mut rest) = self.held.split_at(self.read.min(self.held.len()));
        let count = rest.read(buf)?;
        self.read = self.read.saturating_add(count);
        Ok(count)
    }
}
