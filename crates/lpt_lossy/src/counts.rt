//! How many packets were lost, repeated, delayed, damaged and passed on as they were.

use crate::Fate;

/// How many packets of a stream were lost, repeated and so on. One can be several of these. Each
/// number stays at 2^64 - 1 if it would be more.
#[derive(Clone, Copy)]
pub struct CrossingCounts {
    /// Packets that weren't written.
    pub lost: u64,
    /// Packets that were written twice.
    pub repeated: u64,
    /// Packets that were written later.
    pub delayed: u64,
    /// Packets of which bits were changed.
    pub damaged: u64,
    /// Packets that were written once, as they came and as they were.
    pub passed: u64,
}

/// How a stream over the link ended.
#[derive(Clone, Copy)]
pub struct LossyEnd {
    /// How many packets were lost, repeated and so on.
    pub counts: CrossingCounts,
    /// The place of the octets that ended it, with which no packet begins; none at the stream's
    /// end.
    pub stray: Option<u64>,
}

impl CrossingCounts {
    // The counts of no packets.
    pub(crate) fn new() -> CrossingCounts {
        CrossingCounts {
            lost: 0,
            repeated: 0,
            delayed: 0,
            damaged: 0,
            passed: 0,
        }
    }

    // Counts a packet of which this became.
    pub(crate) fn add(&mut self, became: &Fate) {
        self.lost = one_more(self.lost, became.is_lost);
        self.repeated = one_more(self.repeated, became.is_twice);
        self.delayed = one_more(self.delayed, became.later > 0);
        self.damaged = one_more(self.damaged, became.burst.is_some());
        self.passed = one_more(self.passed, is_passed(became));
    }
}

// Whether a packet of which this became was written once, as it came and as it was.
fn is_passed(became: &Fate) -> bool {
    !(became.is_lost || became.is_twice || became.later > 0 || became.burst.is_some())
}

// One more, if it is so.
fn one_more(count: u64, is: bool) -> u64 {
    count.saturating_add(u64::from(is))
}
