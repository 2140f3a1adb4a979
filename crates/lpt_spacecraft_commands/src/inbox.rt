//! What comes to a spacecraft that ticks while it waits, read by a thread of its own.

ghost use Rattle.std.specs.Prelude.{None};

use crate::ticker::Ticker;
use crossbeam_channel::{Receiver, RecvTimeoutError, Sender, bounded};
use lpt_io::{Failure, Fault};
use lpt_spacecraft::{Happening, Inlet, Passing, Relay, relay_stream};
use lpt_text::{Sink, Source, StreamFault};
use std::alloc::Global;
use std::sync::Wait;
use std::thread::{Builder, Threads};
use std::time::Clock;

/// So much was read at most that the spacecraft hasn't taken: packets, and runs of octets that are
/// none.
const READ_AHEAD: usize = 16;

// What the thread that reads hands over.
#[derive(Drop)]
enum Handed {
    What(Happening),
    // Why nothing more will come, if it isn't that the stream has stopped.
    Fault(StreamFault),
}

// The end of the channel at which the thread hands over.
#[derive(Drop)]
struct Handing<T: Wait + Drop> {
    waits: T,
    to: Sender<Handed>,
    // Whether somebody takes what is handed over.
    open: bool,
}

impl<T: Wait + Drop> Relay for Handing<T> {
    ghost handed = { λ _. None };

    ghost is_open = { λ handing. handing.«open» };

    fn hand(&mut self, what: Happening) -> bool {
        self.open = self.to.send(&self.waits, Handed::What(what)).is_ok();
        self.open
    }
}

/// Where a spacecraft waits for packets, but not longer than up to its next tick.
#[derive(Drop)]
pub struct Inbox<R, T: Wait + Clock + Drop> {
    waits: T,
    from: Receiver<Handed>,
    ticker: Ticker<R>,
    // Whether the thread couldn't read on.
    failed: bool,
}

impl<R, T> Inbox<R, T>
where
    R: Clock + AllocGlobal + Copy + Drop,
    T: Threads + Wait + Clock + Copy + Drop + Send + 'static,
{
    /// Starts a thread that reads this source, and cuts it into packets; what is none is passed
    /// over, or ends it. The ticks are those of this clock.
    ///
    /// The thread isn't joined: it ends with its source, with the process, or once it has something
    /// to hand over and this is gone. Errors: `Read` if it couldn't be started; `Memory`.
    pub fn begin<S: Source + Drop + Send + 'static>(
        rt: &R,
        threads: &T,
        source: S,
        passing: Passing,
        ticker: Ticker<R>,
    ) -> Result<Self, Failure> {
        let alloc = rt.alloc();
        let (to, from) = bounded(alloc, READ_AHEAD)?;
        let handing = Handing {
            waits: *threads,
            to,
            open: true,
        };
        let read = move || read_all(alloc, passing, source, handing);
        match Builder::new().spawn(threads, read) {
            Ok(_) => Ok(Inbox {
                waits: *threads,
                from,
                ticker,
                failed: false,
            }),
            Err(_) => {
                let place = format!(in alloc; "no thread could be started");
                Err(Failure::at(Fault::Read, place))
            }
        }
    }
}

// Hands over what this source gives, and then where it stopped, or why it gave no more.
fn read_all<T: Wait + Drop, S: Source + Drop>(
    alloc: Global,
    passing: Passing,
    source: S,
    handing: Handing<T>,
) {
    let (mut source, mut handing) = (source, handing);
    let last = match relay_stream(alloc, passing, &mut source, &mut handing) {
        Ok(Some(stop)) => Handed::What(Happening::End(stop)),
        Ok(None) => return,
        Err(fault) => Handed::Fault(fault),
    };
    let _ = handing.to.send(&handing.waits, last);
}

impl<R: Clock, T: Wait + Clock + Drop> Inlet for Inbox<R, T> {
    ghost given = { λ _. None };

    ghost failed = { λ inbox. inbox.failed };

    fn next<K: Sink>(&mut self, _out: &K) -> Result<Happening, StreamFault> {
        let wait = self.ticker.until_next();
        match self.from.recv_timeout(&self.waits, wait) {
            Ok(Handed::What(what)) => Ok(what),
            Ok(Handed::Fault(StreamFault::Read)) => {
                self.failed = true;
                Err(StreamFault::Read)
            }
            Ok(Handed::Fault(_)) => Err(StreamFault::Memory),
            Err(RecvTimeoutError::Timeout) => Ok(Happening::Nothing),
            // A thread that ends so has found no memory.
            Err(RecvTimeoutError::Disconnected) => Err(StreamFault::Memory),
        }
    }
}
