//! The machine's clock, by which ticks come.

ghost use Rattle.std.specs.Prelude.{None};

use lpt_io::{Failure, Fault, failure_at};
use std::rt::Clock;
use std::time::{Duration, Instant};

/// Ticks that come every so many milliseconds, as the machine's clock counts them.
#[derive(Clone, Copy)]
pub struct Ticker<R> {
    rt: R,
    begun: Instant,
    millis: u64,
    // How many ticks were told of.
    told: u64,
}

impl<R: Clock + AllocGlobal + Copy> Ticker<R> {
    /// A clock whose ticks come every so many milliseconds from now on; at 0 never.
    ///
    /// Errors: `Read` if the machine has no clock.
    pub fn new(rt: &R, millis: u32) -> Result<Self, Failure> {
        match Instant::now(rt) {
            Ok(begun) => Ok(Ticker {
                rt: *rt,
                begun,
                millis: u64::from(millis),
                told: 0,
            }),
            Err(error) => Err(failure_at(rt, Fault::Read, "the clock", &error)),
        }
    }
}

impl<R: Clock> Ticker<R> {
    /// How long it is from now to the next tick, at least a millisecond; a day if none comes.
    pub fn until_next(&self) -> Duration {
        let passed = self.millis_passed();
        let left = match passed.checked_rem(self.millis) {
            Some(rest) => self.millis.saturating_sub(rest),
            None => 86_400_000,
        };
        Duration::from_millis(left)
    }

    // How many milliseconds have passed since it was made.
    fn millis_passed(&self) -> u64 {
        let Ok(now) = Instant::now(&self.rt) else {
            return 0;
        };
        let passed = now.duration_since(self.begun).as_millis();
        u64::try_from(passed).unwrap_or(u64::MAX)
    }
}

impl<R: Clock> lpt_spacecraft::Clock for Ticker<R> {
    ghost answers = { λ _. None };

    fn due(&mut self) -> u64 {
        let ticks = self.millis_passed().checked_div(self.millis).unwrap_or(0);
        let due = ticks.saturating_sub(self.told);
        self.told = self.told.saturating_add(due);
        due
    }
}

/// A clock by which no tick comes.
#[derive(Drop)]
pub struct Stopped;

impl lpt_spacecraft::Clock for Stopped {
    ghost answers = { λ _. None };

    fn due(&mut self) -> u64 {
        0
    }
}
