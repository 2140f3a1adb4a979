//! Where a reader stands that has read a part of a packet, and waits for the rest.

ghost use Rattle.std.specs.Prelude.{◌≤◌, length};

use crate::Halt;
use lpt_stream::{is_awaited, packet_length};
use std::alloc::Global;

// A reader keeps at most so many octets that it hasn't cut yet.
const MOST_KEPT: usize = 196_619;

// What was read of a stream, and isn't cut yet, as far as there was memory for it.
#[derive(Drop)]
pub(crate) struct Standing {
    // The octets that aren't cut stand behind some that are.
    octets: Vec<u8>,
    start: usize,
    // The place of the first that isn't.
    place: u64,
    // Whether it comes right behind a packet.
    in_step: bool,
    // Whether some octets are missing.
    is_lost: bool,
    ghost ordered: { start ≤ length octets.items },
}

impl Standing {
    // A stream of which nothing was read.
    pub(crate) fn new(alloc: Global) -> Standing {
        Standing {
            octets: Vec::new(alloc),
            start: 0,
            place: 0,
            in_step: true,
            is_lost: false,
        }
    }

    // Notes that these octets were read.
    pub(crate) fn read(&mut self, octets: &[u8]) {
        let held = self.octets.len() - self.start;
        self.octets.copy_within(self.start.., 0);
        self.octets.truncate(held);
        self.start = 0;
        if self.octets.extend_from_slice(octets).is_err() {
            self.is_lost = true;
        }
        let more = self.octets.len().saturating_sub(MOST_KEPT);
        self.start = more;
        self.place = self.place.saturating_add(more as u64);
    }

    // Notes that all up to this place is cut, and whether that is right behind a packet.
    pub(crate) fn cut(&mut self, place: u64, in_step: bool) {
        let held = self.octets.len() - self.start;
        let cut = place.saturating_sub(self.place);
        self.start += held.min(usize::try_from(cut).unwrap_or(held));
        self.place = place;
        self.in_step = in_step;
    }

    // The packet of which a part was read, if its length is believed.
    pub(crate) fn within(&self, longest: usize) -> Option<Halt> {
        let held = &self.octets[self.start..];
        if !self.in_step || self.is_lost || held.is_empty() || !is_awaited(longest, held) {
            return None;
        }
        Some(Halt::Within(self.place, packet_length(held)))
    }
}
