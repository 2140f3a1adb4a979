//! Verification reports.

ghost use Rattle.std.specs.Prelude.{◌≡◌};
ghost use Rattle.lpt_c.specs.Buffers.{code_for, left_by, needed_by};
ghost use Rattle.lpt_c.specs.Readings.{code_read, left_in};
ghost use Rattle.lpt_c.specs.Reports.{report_read, report_text, report_told};

use crate::codes::{DONE, NO_REPORT, RANGE};
use crate::filling::fill;
use lpt_verify::read_report;

/// A verification report that was read.
#[repr(C)]
#[derive(Clone, Copy)]
pub struct LptReport {
    /// The ID of the request that it reports on.
    pub request: u32,
    /// 1 if it reports a failure, otherwise 0.
    pub failed: u16,
    /// The failure code; 0 of a success.
    pub code: u16,
}

/// Reads a message's body as the verification report of this message subtype: 1, 3 or 7 of success,
/// 2 or 4 of failure.
///
/// It answers 0, and `out` says what it is; 105 if it is none. Any failure code is read.
pub fn lpt_read_report(subtype: u8, body: &[u8], out: &mut LptReport) -> u32
    ensures code { result ≡ code_read (report_read subtype body.now) }
    ensures out { out.new ≡ left_in report_told (report_read subtype body.now) out.old }
{
    let Some(report) = read_report(subtype, body) else {
        return NO_REPORT;
    };
    let (failed, code) = match report.code {
        None => (0, 0),
        Some(code) => (1, code),
    };
    *out = LptReport {
        request: report.request.value,
        failed,
        code,
    };
    DONE
}

/// Writes the body of the verification report of this message subtype to the front of a buffer.
///
/// It answers 0; 102 if the subtype is none of 1, 3 and 7 with code 0, nor 2 or 4 with a code of 1
/// to 8; 103 if the buffer is too short. At 0 and at 103 `needed` says how many octets the body
/// has.
pub fn lpt_write_report(
    subtype: u8,
    request: u32,
    code: u16,
    out: &mut [u8],
    needed: &mut usize,
) -> u32
    ensures code { result ≡ code_for (report_text subtype request code) out.old }
    ensures buffer { out.new ≡ left_by (report_text subtype request code) out.old }
    ensures needed { needed.new ≡ needed_by (report_text subtype request code) needed.old }
{
    let request = request.to_be_bytes();
    match subtype {
        1 | 3 | 7 if code == 0 => fill(&[], &request, out, needed),
        2 | 4 if code >= 1 && code <= 8 => fill(&request, &code.to_be_bytes(), out, needed),
        _ => RANGE,
    }
}
