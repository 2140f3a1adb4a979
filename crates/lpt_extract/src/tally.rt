//! How much of a stream wasn't taken.

use crate::Notice;

/// How much of a stream wasn't taken. Each number stays at 2^64 - 1 if it would be more.
#[derive(Clone, Copy)]
pub struct Tally {
    /// Areas that were passed over since they end past the last address or their checksum is wrong,
    /// and reports that aren't read.
    pub passed: u64,
    /// Reports of other memories.
    pub memories: Others,
    /// Dump reports and parts of messages of other application processes.
    pub apids: Others,
    /// Packets that carry a part of a message which wasn't read, and may be a dump report; of the
    /// first of them its place.
    pub parts: Others,
    /// Runs of octets that are no packets, each as long as its header says.
    pub damaged: u64,
    /// Octets that are part of no packet, nor of such a run.
    pub stray: u64,
}

/// How many weren't taken for one reason, and what is known of the first of them.
#[derive(Clone, Copy)]
pub struct Others {
    /// How many.
    pub count: u64,
    /// Of which memory or APID the first of them is, or its place.
    pub first: Option<u64>,
}

impl Tally {
    ghost use Rattle.std.specs.Prelude.{◌≡◌, ◌++◌, ◌∷◌, List, []};
    ghost use Rattle.lpt_extract.specs.declared.notice.Notice.{Notice};
    ghost use Rattle.lpt_extract.specs.Tallies.{IsTally};

    // The tally of nothing.
    pub(crate) fn new() -> Tally
        ensures { IsTally [] result }
    {
        Tally {
            passed: 0,
            memories: Others::new(),
            apids: Others::new(),
            parts: Others::new(),
            damaged: 0,
            stray: 0,
        }
    }

    // Counts what was told.
    pub(crate) fn count(&mut self, notice: Notice)
        ensures { (ns : List Notice) → IsTally ns self.old → IsTally (ns ++ notice ∷ []) self.new }
    {
        match notice {
            Notice::Taken(_) => {}
            Notice::PastEnd(_, _) => self.passed = self.passed.saturating_add(1),
            Notice::WrongChecksum(_, _) => self.passed = self.passed.saturating_add(1),
            Notice::Unread(_, _) => self.passed = self.passed.saturating_add(1),
            Notice::OtherMemory(memory) => self.memories.add(u64::from(memory)),
            Notice::OtherApid(apid) => self.apids.add(u64::from(apid)),
            Notice::OfPart(place) => self.parts.add(place),
            Notice::Damaged => self.damaged = self.damaged.saturating_add(1),
            Notice::Stray => self.stray = self.stray.saturating_add(1),
        }
    }
}

impl Others {
    ghost use Rattle.std.specs.Prelude.{◌≡◌, ℕ, ◌++◌, ◌∷◌, List, []};
    ghost use Rattle.lpt_extract.specs.Tallies.{AreOthers};

    // None of them.
    fn new() -> Others
        ensures { AreOthers [] result }
    {
        Others {
            count: 0,
            first: None,
        }
    }

    // Counts one more.
    fn add(&mut self, one: u64)
        ensures { (xs : List ℕ) → AreOthers xs self.old → AreOthers (xs ++ one ∷ []) self.new }
    {
        self.count = self.count.saturating_add(1);
        if self.first.is_none() {
            self.first = Some(one);
        }
    }
}
