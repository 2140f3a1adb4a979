//! Reading a report.

ghost use Rattle.std.specs.Prelude.{◌≡◌, Some, IfSome};
ghost use Rattle.lpt_verify.specs.declared.report.Report.{Report};
ghost use Rattle.lpt_verify.specs.Reading.{IsReport, report_in};

use crate::Report;
use lpt_pus::RequestId;

/// Reads the body of a report of this message subtype: the request ID (32 bits) and, of a report
/// of failure, the failure code (16 bits).
///
/// `None` if the subtype is none of 1, 3 and 7 for success and 2 and 4 for failure, or the body
/// isn't as long as that. Any failure code is read.
#[tactic(auto, unfolding(crate::specs::Reading::report_in))]
pub fn read_report(subtype: u8, body: &[u8]) -> Option<Report>
    // What is read is what the octets are.
    ensures found { IfSome result (λ r. IsReport subtype body.now r) }
    // Each report is read.
    ensures report { (r : Report) → IsReport subtype body.now r → result ≡ Some r }
    // It is the report that is in the body, or none.
    ensures value { result ≡ report_in subtype body.now }
{
    let (value, code) = match (subtype, body) {
        (1 | 3 | 7, [a, b, c, d]) => (u32::from_be_bytes([*a, *b, *c, *d]), None),
        (2 | 4, [a, b, c, d, e, f]) => (
            u32::from_be_bytes([*a, *b, *c, *d]),
            Some(u16::from_be_bytes([*e, *f])),
        ),
        _ => return None,
    };
    Some(Report {
        request: RequestId { value },
        code,
    })
}
