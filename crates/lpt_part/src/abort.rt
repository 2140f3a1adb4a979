//! The body of an abortion report: the transaction identifier and why its reception was aborted.

ghost use Rattle.std.specs.Prelude.{◌≡◌, ℕ, Ok, IfOk};
ghost use Rattle.lpt_part.specs.declared.reason.Reason.{Reason};
ghost use Rattle.lpt_part.specs.Aborts.{IsAbort, abort_body, abort_verdict};

use crate::{PartFault, Reason, TransactionId};
use lpt_packet::Octets;
use std::alloc::{AllocError, Global};

/// Reads the body of an abortion report: the transaction identifier (16 bits) and the failure
/// reason (8 bits).
///
/// Errors: `AbortBody`, other than 3 octets, or a failure reason that is none of 1, 2 and 3.
pub fn read_abort(body: &[u8]) -> Result<(TransactionId, Reason), PartFault>
    // What is read is what the octets are.
    ensures found { IfOk result (λ x. IsAbort body.now x.0 x.1) }
    // Each abortion report is read.
    ensures abort { (id : ℕ) (reason : Reason) → IsAbort body.now id reason
        → result ≡ Ok (id, reason) }
    // What is none is refused.
    ensures exact { result ≡ abort_verdict body.now }
{
    fault_or_abort(body)
}

// The test of a body, and what stands at its places.
#[tactic(auto, unfolding(crate::specs::Aborts::abort_verdict))]
fn fault_or_abort(body: &[u8]) -> Result<(TransactionId, Reason), PartFault>
    ensures { result ≡ abort_verdict body.now }
{
    if body.len() != 3 {
        return Err(PartFault::AbortBody);
    }
    let id = u16::from_be_bytes([body[0], body[1]]);
    let reason = match body[2] {
        1 => Reason::Expired,
        2 => Reason::Discontinuity,
        3 => Reason::Conflict,
        _ => return Err(PartFault::AbortBody),
    };
    Ok((id, reason))
}

/// The body of an abortion report. The only error is out of memory.
pub fn write_abort(alloc: Global, id: TransactionId, reason: Reason) -> Result<Octets, AllocError>
    ensures { IfOk result (λ o. o ≡ abort_body id reason) }
{
    let body = abort_octets(id, reason).to_vec(alloc)?;
    Ok(Octets::from_vec(body))
}

/// The three octets of an abortion report's body.
#[tactic(auto, unfolding(crate::specs::Aborts::abort_body))]
pub fn abort_octets(id: TransactionId, reason: Reason) -> [u8; 3]
    ensures { result ≡ abort_body id reason }
{
    let id = id.to_be_bytes();
    [id[0], id[1], reason.code()]
}
