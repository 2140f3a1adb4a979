//! How an execution ends.

use lpt_events::TelemetryKind;
use lpt_packet::Octets;
use lpt_pus::FailureCode;

/// A report to be sent: the kind of telemetry, and its body.
#[derive(Drop, PartialEq, Eq)]
pub struct Report {
    /// The kind of telemetry.
    pub kind: TelemetryKind,
    /// The body.
    pub body: Octets,
}

/// How the execution of a released message ends.
#[derive(Drop, PartialEq, Eq)]
pub enum Ending {
    /// The message is no telecommand for the node: nothing is done, and nothing is reported.
    Silent,
    /// The request is refused for this reason, and no octet of a memory changes.
    Refused(FailureCode),
    /// The request is carried out. A dump or a check has this report of data.
    Carried(Option<Report>),
}
