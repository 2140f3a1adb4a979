//! The packet sequence count and the message type counters.

ghost use Rattle.std.specs.Prelude.{◌≡◌, ◌≤◌};
ghost use Rattle.lpt_node.specs.Counting.{counter_of, next_count, next_types, no_types};

use lpt_events::TelemetryKind;

/// How many kinds of telemetry there are.
const KINDS: usize = 11;

/// How many packets a node has made since it started.
#[derive(Clone, Copy)]
pub(crate) struct Counts {
    /// The next packet's sequence count, 0 to 16,383.
    pub(crate) count: u16,
    /// The next message type counter of each kind of telemetry.
    pub(crate) types: [u16; KINDS],
    ghost fits: { count ≤ 16383 },
}

impl Counts {
    /// No packet was made.
    pub(crate) fn new() -> Counts
        ensures count { result.count ≡ 0 }
        ensures types { result.types ≡ no_types }
    {
        Counts {
            count: 0,
            types: [0; KINDS],
        }
    }

    /// The next message type counter of a kind.
    pub(crate) fn counter(&self, kind: TelemetryKind) -> u16
        ensures { result ≡ counter_of self.now.types kind }
    {
        self.types[kind.place()]
    }

    /// A packet was made.
    pub(crate) fn step(&mut self)
        ensures count { self.new.count ≡ next_count self.old.count }
        ensures types { self.new.types ≡ self.old.types }
    {
        self.count = (self.count + 1) % 16384;
    }

    /// Telemetry of a kind was made.
    pub(crate) fn step_kind(&mut self, kind: TelemetryKind)
        ensures count { self.new.count ≡ next_count self.old.count }
        ensures types { self.new.types ≡ next_types self.old.types kind }
    {
        self.step();
        let place = kind.place();
        self.types[place] = self.types[place].wrapping_add(1);
    }
}
