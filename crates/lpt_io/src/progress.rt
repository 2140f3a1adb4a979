//! What standard error is told beside what is wrong, and how far a reading is.

ghost use Rattle.std.specs.Prelude.{◌≡◌, ◌&&◌, not};
ghost use Rattle.lpt_io.specs.Voices.{is_apart, is_paced, tells_of};

use crate::machine::Terminals;
use crate::pace::{CLEAR, pace_line};
use std::io::{self, Read};
use std::rt::Clock;
use std::time::{Duration, Instant};

/// What standard error is told beside what is wrong.
#[derive(Clone, Copy)]
pub struct Voice {
    // Whether it is told what happened.
    tells: bool,
    // Whether it is told how far a reading is.
    paced: bool,
    // Whether it is told so also if the command writes while it reads.
    apart: bool,
}

impl Voice {
    /// The voice of a command: if it is quiet, it tells only what is wrong. It tells how far a
    /// reading is only if standard error is a terminal.
    pub fn new(terminals: Terminals, quiet: bool) -> Voice
        ensures tells { tells_of result ≡ not quiet }
        ensures paced { is_paced result ≡ (not quiet && terminals.errors) }
        ensures apart { is_apart result ≡ not terminals.output }
    {
        Voice {
            tells: !quiet,
            paced: !quiet && terminals.errors,
            apart: !terminals.output,
        }
    }

    /// The voice of a command that writes while it reads: it doesn't tell how far a reading is if
    /// standard output is a terminal too.
    pub fn beside_output(self) -> Voice
        ensures tells { tells_of result ≡ tells_of self }
        ensures paced { is_paced result ≡ (is_paced self && is_apart self) }
    {
        Voice {
            paced: self.paced && self.apart,
            ..self
        }
    }

    /// Whether standard error is told what happened.
    pub fn tells(self) -> bool
        ensures { result ≡ tells_of self }
    {
        self.tells
    }

    /// Takes away what was told of how far a reading is.
    pub fn clear(self, rt: &impl Eprint) {
        if self.paced {
            let _ = rt.eprint(CLEAR);
        }
    }

    /// Tells how many requests are settled before a round, and leaves the cursor at the line's
    /// front.
    pub fn tell_round<R: Eprint + AllocGlobal>(
        self,
        rt: &R,
        settled: usize,
        of: usize,
        round: u64,
    ) {
        if self.paced {
            let text = format!(in rt.alloc(); "lpt: {settled} of {of}, round {round}{CLEAR}\r");
            if let Ok(text) = text {
                let _ = rt.eprint(text.as_str());
            }
        }
    }

    /// How far a reading of so many octets is, if that is told.
    pub fn pace<R: Clock + Copy>(self, rt: &R, of: Option<u64>) -> Option<Pace<R>> {
        if !self.paced {
            return None;
        }
        let last = Instant::now(rt).ok()?;
        Some(Pace {
            rt: *rt,
            last,
            begun: None,
            done: 0,
            of,
        })
    }
}

/// How far a reading is, which is told once a second.
#[derive(Drop)]
pub struct Pace<R> {
    rt: R,
    // When it was told last, or when the reading began.
    last: Instant,
    // When the first octets came: what was opened before may be read first.
    begun: Option<Instant>,
    done: u64,
    of: Option<u64>,
}

impl<R: Clock + Eprint + AllocGlobal> Pace<R> {
    // Takes a read of so many octets; none at the end.
    fn note(&mut self, count: usize) {
        self.done = self.done.saturating_add(count as u64);
        if count == 0 {
            let _ = self.rt.eprint(CLEAR);
            return;
        }
        let Ok(now) = Instant::now(&self.rt) else {
            return;
        };
        let begun = self.begun.unwrap_or(now);
        self.begun = Some(begun);
        if now.duration_since(self.last) >= Duration::from_secs(1) {
            self.last = now;
            self.tell(now.duration_since(begun));
        }
    }

    // Tells it after so long a reading, and leaves the cursor at the line's front: what is told
    // next stands over it. If a file has grown, its length isn't known any more.
    fn tell(&self, taken: Duration) {
        let whole = self.of.filter(|of| self.done <= *of);
        let millis = u64::try_from(taken.as_millis()).unwrap_or(u64::MAX);
        if let Ok(line) = pace_line(self.rt.alloc(), self.done, whole, millis) {
            let _ = self.rt.eprint(line.as_str());
        }
    }
}

/// A reader, and how far it is, if that is told.
#[derive(Drop)]
pub struct Paced<I, R> {
    inner: I,
    pace: Option<Pace<R>>,
}

impl<I, R> Paced<I, R> {
    /// A reader of which nothing was read.
    pub fn new(inner: I, pace: Option<Pace<R>>) -> Self {
        Paced { inner, pace }
    }
}

impl<I: Read, R: Clock + Eprint + AllocGlobal> Read for Paced<I, R> {
    fn read(&mut self, buf: &mut [u8]) -> io::Result<usize> {
        let count = self.inner.read(buf)?;
        if let Some(pace) = &mut self.pace {
            pace.note(count);
        }
        Ok(count)
    }
}
