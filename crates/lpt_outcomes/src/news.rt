//! What a report tells.

use crate::key::Key;
use lpt_requests::RequestReport;

/// A verification report: its destination, its message subtype, and what its body says.
#[derive(Clone, Copy)]
pub(crate) struct ReportNews {
    pub(crate) destination: u32,
    pub(crate) subtype: u8,
    pub(crate) report: RequestReport,
}

impl ReportNews {
    ghost use Rattle.std.specs.Prelude.{◌≡◌};
    ghost use Rattle.lpt_outcomes.specs.Keys.{reported_key};

    // Which request it is on.
    pub(crate) fn key(&self) -> Key
        ensures { result ≡ reported_key self.now }
    {
        Key {
            source: self.destination,
            id: self.report.request.value,
        }
    }
}
