//! Reports as they are read and as they are written.

use lpt_packet::Octets;
use lpt_pus::RequestId;

/// What a report's body says.
#[derive(Clone, Copy, Debug, PartialEq, Eq)]
pub struct Report {
    /// The request that it reports on.
    pub request: RequestId,
    /// The failure code, of any number, if it reports a failure.
    pub code: Option<u16>,
}

/// A report to be sent.
#[derive(Drop, PartialEq, Eq)]
pub struct EncodedReport {
    /// The message subtype.
    pub subtype: u8,
    /// The body.
    pub body: Octets,
}

/// The verification reports of one request, around its data report.
///
/// The data report is what the request itself asks for, as a memory dump. It is of another
/// service and stands in neither list.
#[derive(Drop)]
pub struct Reports {
    /// Those that are sent before the data report, in this order.
    pub before: Vec<EncodedReport>,
    /// Those that are sent after it.
    pub after: Vec<EncodedReport>,
}
