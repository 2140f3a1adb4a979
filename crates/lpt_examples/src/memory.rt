//! Calling `lpt_memory`: a service that carries out one message after another.

ghost use Rattle.std.specs.Prelude.{◌≡◌, IfOk, OnOk, OnErr};
ghost use Rattle.lpt_memory.specs.Effects.{answer};
ghost use Rattle.lpt_memory.specs.Meanings.{meaning};
ghost use Rattle.lpt_memory.specs.Memories.{effect, sizes_of};

use lpt_memory::{Effect, Memories, Ticket, prepare};
use lpt_packet::Octets;
use std::alloc::{AllocError, Global};

/// Carries out what a message asks of the memories, at a node with this APID.
///
/// The only error is out of memory, which leaves the memories as they were.
pub fn carry_out(
    alloc: Global,
    memories: &mut Memories,
    apid: u16,
    message: Octets,
) -> Result<Effect, AllocError>
    ensures answer { IfOk result (λ e.
        e ≡ answer (meaning apid (sizes_of memories.old) message) memories.old) }
    ensures effect { OnOk result (memories.new
        ≡ effect (meaning apid (sizes_of memories.old) message) memories.old) }
    ensures unchanged { OnErr result (memories.new ≡ memories.old) }
{
    let shape = memories.shape()?;
    // This service has no numbers for boots or jobs, so both are 0.
    match prepare(alloc, &shape, apid, Ticket::new(0, 0, message)) {
        // A ticket can't be dropped, so it is abandoned.
        Err(ticket) => {
            ticket.abandon();
            Err(AllocError)
        }
        Ok(prepared) => memories.apply(&prepared.reading()),
    }
}
