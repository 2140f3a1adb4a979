//! Abortion reports.

ghost use Rattle.std.specs.Prelude.{◌≡◌};
ghost use Rattle.lpt_c.specs.Aborts.{abort_read, abort_text, abort_told, reason_named};
ghost use Rattle.lpt_c.specs.Buffers.{code_for, left_by, needed_by};
ghost use Rattle.lpt_c.specs.Readings.{code_read, left_in};

use crate::codes::{DONE, RANGE};
use crate::filling::fill;
use lpt_part::{Reason, abort_octets, read_abort};

/// An abortion report that was read.
#[repr(C)]
#[derive(Clone, Copy)]
pub struct LptAbort {
    /// The transaction identifier.
    pub id: u16,
    /// Why its reception was aborted: 1 expired, 2 discontinuity, 3 conflict.
    pub reason: u16,
}

/// Reads a message's body as an abortion report.
///
/// It answers 0, and `out` says what it is; 24 if it is none.
pub fn lpt_read_abort(body: &[u8], out: &mut LptAbort) -> u32
    ensures code { result ≡ code_read (abort_read body.now) }
    ensures out { out.new ≡ left_in abort_told (abort_read body.now) out.old }
{
    match read_abort(body) {
        Err(fault) => u32::from(fault.code()),
        Ok((id, reason)) => {
            *out = LptAbort {
                id,
                reason: u16::from(reason.code()),
            };
            DONE
        }
    }
}

/// Writes the body of an abortion report to the front of a buffer.
///
/// It answers 0; 102 if the reason isn't 1 to 3; 103 if the buffer is too short. At 0 and at 103
/// `needed` says how many octets the body has, 3.
pub fn lpt_write_abort(id: u16, reason: u16, out: &mut [u8], needed: &mut usize) -> u32
    ensures code { result ≡ code_for (abort_text id (reason_named reason)) out.old }
    ensures buffer { out.new ≡ left_by (abort_text id (reason_named reason)) out.old }
    ensures needed { needed.new ≡ needed_by (abort_text id (reason_named reason)) needed.old }
{
    let reason = match reason {
        1 => Reason::Expired,
        2 => Reason::Discontinuity,
        3 => Reason::Conflict,
        _ => return RANGE,
    };
    fill(&[], &abort_octets(id, reason), out, needed)
}
