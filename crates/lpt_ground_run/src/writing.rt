//! A thread that writes what goes up, so that a reader that stands still ends a pass.

use crate::hearing::HearFault;
use crossbeam_channel::{Receiver, RecvTimeoutError, Sender, unbounded};
use std::alloc::Global;
use std::io::{self, ErrorKind, Write};
use std::sync::Wait;
use std::thread::{Builder, Threads};
use std::time::{Clock, Duration};

// What became of octets that the thread got.
#[derive(Drop)]
enum Wrote {
    // So many were taken.
    Taken(usize),
    // None were, for this.
    Failed(io::Error),
}

/// What another thread writes. Each write waits for that thread, but no longer than a limit.
#[derive(Drop)]
pub struct TimedWriter<R: Wait + Clock + Drop> {
    rt: R,
    alloc: Global,
    to: Sender<Vec<u8>>,
    from: Receiver<Wrote>,
    limit: Duration,
    // Whether a write was waited for in vain: from then on nothing is written.
    late: bool,
}

impl<R: Threads + Wait + Clock + Copy + Drop + Send + 'static> TimedWriter<R> {
    /// Starts a thread that writes to this what it is given. A write fails as `TimedOut` if it
    /// takes longer than the limit, and so does each one behind it.
    ///
    /// The thread isn't joined: it ends with the process, or once this is gone and its write is
    /// done. Errors: `NoThread`, `Memory`.
    pub fn begin<W: Write + Drop + Send + 'static>(
        rt: &R,
        alloc: Global,
        out: W,
        limit: Duration,
    ) -> Result<Self, HearFault> {
        let (Ok((to, given)), Ok((told, from))) = (unbounded(alloc), unbounded(alloc)) else {
            return Err(HearFault::Memory);
        };
        let waits = *rt;
        let write = move || write_all(waits, given, out, told);
        match Builder::new().spawn(rt, write) {
            Ok(_) => Ok(TimedWriter {
                rt: *rt,
                alloc,
                to,
                from,
                limit,
                late: false,
            }),
            Err(_) => Err(HearFault::NoThread),
        }
    }
}

// Writes what is given, and says each time what became of it.
fn write_all<R: Wait + Drop, W: Write + Drop>(
    rt: R,
    given: Receiver<Vec<u8>>,
    out: W,
    told: Sender<Wrote>,
) {
    let mut out = out;
    for _ in 0..u64::MAX {
        let Ok(octets) = given.recv(&rt) else {
            return;
        };
        let wrote = match out.write(octets.as_slice()) {
            Ok(count) => Wrote::Taken(count),
            Err(error) => Wrote::Failed(error),
        };
        if told.send(&rt, wrote).is_err() {
            return;
        }
    }
}

impl<R: Wait + Clock + Drop> Write for TimedWriter<R> {
    fn write(&mut self, buf: &[u8]) -> io::Result<usize> {
        if self.late {
            return Err(io::Error::from(ErrorKind::TimedOut));
        }
        let Ok(octets) = Vec::from_slice(self.alloc, buf) else {
            return Err(io::Error::from(ErrorKind::OutOfMemory));
        };
        if self.to.send(&self.rt, octets).is_err() {
            return Err(io::Error::from(ErrorKind::BrokenPipe));
        }
        match self.from.recv_timeout(&self.rt, self.limit) {
            Ok(Wrote::Taken(count)) => Ok(count.min(buf.len())),
            Ok(Wrote::Failed(error)) => Err(error),
            Err(RecvTimeoutError::Timeout) => {
                self.late = true;
                Err(io::Error::from(ErrorKind::TimedOut))
            }
            Err(RecvTimeoutError::Disconnected) => Err(io::Error::from(ErrorKind::BrokenPipe)),
        }
    }

    // Each write was passed on.
    fn flush(&mut self) -> io::Result<()> {
        Ok(())
    }
}
