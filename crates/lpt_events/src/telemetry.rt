//! The kinds of telemetry that the spacecraft makes.

ghost use Rattle.std.specs.Prelude.{◌≡◌, ◌≤◌};
ghost use Rattle.lpt_events.specs.TelemetryKinds.{service_of, subtype_of, place_of};

/// A kind of telemetry that the spacecraft makes: a message type (ECSS-E-ST-70-41C).
#[derive(Clone, Copy, Debug, PartialEq, Eq)]
pub enum TelemetryKind {
    /// The successful acceptance verification report, TM\[1,1\].
    Accepted,
    /// The failed acceptance verification report, TM\[1,2\].
    NotAccepted,
    /// The successful start of execution verification report, TM\[1,3\].
    Started,
    /// The failed start of execution verification report, TM\[1,4\].
    NotStarted,
    /// The successful completion of execution verification report, TM\[1,7\].
    Completed,
    /// The report of dumped memory, TM\[6,6\].
    Dump,
    /// The report of checked memory, TM\[6,10\].
    Check,
    /// The first part of a downlinked message, TM\[13,1\].
    FirstPart,
    /// An intermediate part of a downlinked message, TM\[13,2\].
    MiddlePart,
    /// The last part of a downlinked message, TM\[13,3\].
    LastPart,
    /// The report that the reception of an uplinked message was aborted, TM\[13,16\].
    Abort,
}

impl TelemetryKind {
    /// The service type.
    pub fn service(self) -> u8
        ensures { result ≡ service_of self }
    {
        match self {
            TelemetryKind::Accepted => 1,
            TelemetryKind::NotAccepted => 1,
            TelemetryKind::Started => 1,
            TelemetryKind::NotStarted => 1,
            TelemetryKind::Completed => 1,
            TelemetryKind::Dump => 6,
            TelemetryKind::Check => 6,
            TelemetryKind::FirstPart => 13,
            TelemetryKind::MiddlePart => 13,
            TelemetryKind::LastPart => 13,
            TelemetryKind::Abort => 13,
        }
    }

    /// The message subtype.
    pub fn subtype(self) -> u8
        ensures { result ≡ subtype_of self }
    {
        match self {
            TelemetryKind::Accepted => 1,
            TelemetryKind::NotAccepted => 2,
            TelemetryKind::Started => 3,
            TelemetryKind::NotStarted => 4,
            TelemetryKind::Completed => 7,
            TelemetryKind::Dump => 6,
            TelemetryKind::Check => 10,
            TelemetryKind::FirstPart => 1,
            TelemetryKind::MiddlePart => 2,
            TelemetryKind::LastPart => 3,
            TelemetryKind::Abort => 16,
        }
    }

    /// The place of this kind among all, from 0.
    pub fn place(self) -> usize
        ensures place { result ≡ place_of self }
        ensures within { result ≤ 10 }
    {
        match self {
            TelemetryKind::Accepted => 0,
            TelemetryKind::NotAccepted => 1,
            TelemetryKind::Started => 2,
            TelemetryKind::NotStarted => 3,
            TelemetryKind::Completed => 4,
            TelemetryKind::Dump => 5,
            TelemetryKind::Check => 6,
            TelemetryKind::FirstPart => 7,
            TelemetryKind::MiddlePart => 8,
            TelemetryKind::LastPart => 9,
            TelemetryKind::Abort => 10,
        }
    }
}
