//! The log of a seat: the calls that were accepted of it.

ghost use Rattle.std.specs.Prelude.{◌≡◌, ◌+◌, ◌≤◌, ◌<◌, ◌^◌, [], ◌∷◌, ◌++◌, vec_len, vec_capacity, OnOk};

use crate::{Event, Reply};
use std::alloc::{AllocError, Global};

/// A call that was accepted.
#[derive(Debug, Drop, PartialEq, Eq)]
pub struct Call {
    /// The place of its entry in the journal.
    pub place: u64,
    /// Its event.
    pub event: Event,
    /// What it gave.
    pub reply: Reply,
}

/// What one seat was answered, in order.
#[derive(Debug, Drop)]
pub struct SeatLog {
    /// The seat, 0 to 10.
    pub seat: u8,
    /// How long the journal was when the seat last saw it.
    pub seen: u64,
    /// The calls that were accepted.
    pub calls: Vec<Call>,
}

impl SeatLog {
    /// The log of a seat that has made no calls and has seen a journal of this length. It takes no
    /// memory.
    pub fn new(alloc: Global, seat: u8, seen: u64) -> SeatLog
        ensures seat { result.seat ≡ seat }
        ensures seen { result.seen ≡ seen }
        ensures calls { result.calls.items ≡ [] }
    {
        SeatLog {
            seat,
            seen,
            calls: Vec::new(alloc),
        }
    }

    /// Makes the place of one call more. The only error is out of memory.
    pub fn make_place(&mut self) -> Result<(), AllocError>
        ensures seat { self.new.seat ≡ self.old.seat }
        ensures seen { self.new.seen ≡ self.old.seen }
        ensures calls { self.new.calls.items ≡ self.old.calls.items }
        ensures room { OnOk result (vec_len self.new.calls + 1 ≤ vec_capacity self.new.calls) }
    {
        match self.calls.reserve(1) {
            Ok(()) => Ok(()),
            Err(error) => Err(error),
        }
    }

    /// Notes a call, for which there is a place, as seen.
    pub fn note(&mut self, place: u64, event: Event, reply: Reply)
        requires room { vec_len self.old.calls + 1 ≤ vec_capacity self.old.calls }
        requires small { place + 1 < 2 ^ 64 }
        ensures seat { self.new.seat ≡ self.old.seat }
        ensures seen { self.new.seen ≡ place + 1 }
        ensures calls { self.new.calls.items ≡ self.old.calls.items ++ record { place = place; event = event; reply = reply } ∷ [] }
    {
        self.seen = place + 1;
        let Ok(()) = self.calls.push(Call {
            place,
            event,
            reply,
        })
        else {
            unreachable!()
        };
    }
}
