//! Reading a report.

ghost use Rattle.std.specs.Prelude.{◌≡◌};
ghost use Rattle.lpt_requests.specs.Failures.{any_report_in, fails, is_own, notice_in, notice_of};

use crate::FailureNotice;
use lpt_pus::RequestId;
use lpt_verify::read_report;

/// The octets of a request ID, and of one with a failure code behind it.
const ID: usize = 4;

const ID_AND_CODE: usize = 6;

/// The message subtype of the report that a step of execution failed.
const PROGRESS: u8 = 6;

/// What a report says of its request.
#[derive(Clone, Copy, Debug, PartialEq, Eq)]
pub struct RequestReport {
    /// The request that it reports on.
    pub request: RequestId,
    /// Why the request failed, if it reports a failure.
    pub failure: Option<FailureNotice>,
}

/// Reads the body of a report of this message subtype.
///
/// A report of success (1, 3, 7) is read as `read_report` does. One of failure of acceptance (2),
/// start (4), progress (6) or completion (8) begins with the request ID (32 bits). What follows is
/// its failure code if that has 16 bits; in a report of progress a step ID stands before the code,
/// as wide as a mission chooses, so no code is read there.
///
/// `None` if the subtype is another one, or the body isn't so long.
#[tactic(auto, unfolding(crate::specs::Failures::any_report_in))]
pub fn read_any_report(subtype: u8, body: &[u8]) -> Option<RequestReport>
    ensures { result ≡ any_report_in subtype body.now }
{
    if fails(subtype) && body.len() >= ID {
        let value = u32::from_be_bytes([body[0], body[1], body[2], body[3]]);
        return Some(RequestReport {
            request: RequestId { value },
            failure: Some(notice_in(subtype, body)),
        });
    }
    let report = read_report(subtype, body)?;
    Some(RequestReport {
        request: report.request,
        failure: None,
    })
}

// Whether it is the message subtype of a report of failure.
fn fails(subtype: u8) -> bool
    ensures { result ≡ fails subtype }
{
    subtype == 2 || subtype == 4 || subtype == 6 || subtype == 8
}

// Why the request failed, by the body of a report of failure.
fn notice_in(subtype: u8, body: &[u8]) -> FailureNotice
    ensures { result ≡ notice_in subtype body.now }
{
    if subtype != PROGRESS && body.len() == ID_AND_CODE {
        notice_of(subtype, u16::from_be_bytes([body[4], body[5]]))
    } else {
        FailureNotice::Unread
    }
}

// What this failure code says in a report of this subtype.
fn notice_of(subtype: u8, code: u16) -> FailureNotice
    ensures { result ≡ notice_of subtype code }
{
    if is_own(subtype, code) {
        FailureNotice::Code(code)
    } else {
        FailureNotice::Foreign(code)
    }
}

// Whether this service reports failures of this code by reports of this subtype.
fn is_own(subtype: u8, code: u16) -> bool
    ensures { result ≡ is_own subtype code }
{
    (subtype == 2 && 1 <= code && code <= 2) || (subtype == 4 && 3 <= code && code <= 8)
}
