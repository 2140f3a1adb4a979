//! Writing a part as a body.

ghost use Rattle.std.specs.Prelude.{◌≡◌, ◌++◌, IfOk};
ghost use Rattle.lpt_part.specs.Parts.{piece, body_of};

use crate::Part;
use lpt_packet::Octets;
use std::alloc::{AllocError, Global};

/// The octets of a part's header: the transaction identifier and the part sequence number.
const PART_HEADER: usize = 4;

/// The body of a message that carries this part. The only error is out of memory.
pub fn write_part(alloc: Global, part: &Part<'_>) -> Result<Octets, AllocError>
    ensures { IfOk result (λ o. o ≡ body_of (piece part.now)) }
{
    let mut body = Vec::with_capacity(alloc, PART_HEADER + part.octets.len())?;
    body.extend_from_slice(&part.header())?;
    body.extend_from_slice(part.octets)?;
    Ok(Octets::from_vec(body))
}

impl Part<'_> {
    /// What stands before the part's octets in the body that carries it: the transaction
    /// identifier (16 bits) and the part sequence number (16 bits).
    #[tactic(auto, unfolding(crate::specs::Parts::body_of))]
    pub fn header(&self) -> [u8; 4]
        ensures { result ++ self.now.octets.now ≡ body_of (piece self.now) }
    {
        let id = self.id.to_be_bytes();
        let number = self.number.to_be_bytes();
        [id[0], id[1], number[0], number[1]]
    }
}
