//! What is passed over of a stream of requests, or of reports on them.

/// What a piece of a stream is that is none of those that are looked for.
#[derive(Clone, Copy)]
pub(crate) enum Beside {
    /// Among requests, a telecommand that carries a part of a large message.
    Part,
    /// A packet that isn't read as a telecommand among requests, or as telemetry among reports.
    Foreign,
    /// Among reports, one of service 1 that isn't read, but for one of successful progress.
    Unread,
    /// As many octets as their header says, that are no packet.
    Damaged,
    /// An octet with which no packet begins.
    Stray,
    /// Nothing to tell: an idle packet; among reports other telemetry too.
    Quiet,
}

/// How much of a stream of requests, or of reports on them, was passed over. Each number stays at
/// 2^64 - 1 if it would be more.
#[derive(Clone, Copy)]
pub struct Passed {
    /// Parts of large messages among requests.
    pub parts: u64,
    /// Packets that aren't read as telecommands among requests, or as telemetry among reports.
    pub foreign: u64,
    /// Verification reports that aren't read, but for those of successful progress.
    pub unread: u64,
    /// Runs of octets that are no packets, each as long as its header says.
    pub damaged: u64,
    /// Octets that are part of no packet, nor of such a run.
    pub stray: u64,
}

impl Passed {
    ghost use Rattle.std.specs.Prelude.{◌≡◌, ◌++◌, ◌∷◌, List, []};
    ghost use Rattle.lpt_outcomes.specs.declared.passed.Beside.{Beside};
    ghost use Rattle.lpt_outcomes.specs.Passing.{is_nothing, IsPassed};

    // What is passed over of a stream from which nothing came.
    pub(crate) fn new() -> Passed
        ensures { IsPassed [] result }
    {
        Passed {
            parts: 0,
            foreign: 0,
            unread: 0,
            damaged: 0,
            stray: 0,
        }
    }

    // Counts one more.
    pub(crate) fn count(&mut self, beside: Beside)
        ensures { (bs : List Beside) → IsPassed bs self.old
            → IsPassed (bs ++ beside ∷ []) self.new }
    {
        match beside {
            Beside::Part => self.parts = self.parts.saturating_add(1),
            Beside::Foreign => self.foreign = self.foreign.saturating_add(1),
            Beside::Unread => self.unread = self.unread.saturating_add(1),
            Beside::Damaged => self.damaged = self.damaged.saturating_add(1),
            Beside::Stray => self.stray = self.stray.saturating_add(1),
            Beside::Quiet => {}
        }
    }

    // Whether nothing was passed over.
    pub(crate) fn is_nothing(&self) -> bool
        ensures { result ≡ is_nothing self.now }
    {
        self.parts == 0
            && self.foreign == 0
            && self.unread == 0
            && self.damaged == 0
            && self.stray == 0
    }
}
