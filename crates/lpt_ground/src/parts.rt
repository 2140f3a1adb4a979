//! The packets of a message's parts.

ghost use Rattle.std.specs.Prelude.{◌≡◌, ◌≤◌, ◌<◌, IfOk};
ghost use Rattle.lpt_packet.specs.declared.direction.Direction.TheVariants.{Up};
ghost use Rattle.lpt_events.specs.Arrivals.{part_subtype};
ghost use Rattle.lpt_ground.specs.Parts.{behind, id_of, part_packet, parts_of};

use crate::Large;
use lpt_packet::Octets;
use lpt_part::laws::parts_fit;
use lpt_part::{Kind, TRANSFER, count, part_at};
use lpt_pus::{TcHead, tc_pieces};
use std::alloc::{AllocError, Global};

/// How many sequence counts there are.
const COUNTS: u32 = 16_384;

impl Large {
    /// How many parts it has.
    pub fn parts(&self) -> u16
        ensures { result ≡ parts_of self.now }
    {
        parts_fit();
        count(self.message.as_slice().len() as u32, self.part_size) as u16
    }

    /// The packet of the part behind so many, under the name behind so many, if the first packet
    /// under that name has this sequence count.
    ///
    /// The only error is out of memory.
    pub fn packet(&self, alloc: Global, used: u32, first: u16, k: u16) -> Result<Octets, AllocError>
        requires first { first ≤ 16383 }
        requires within { k < parts_of self.now }
        ensures { IfOk result (λ o. o ≡ part_packet self.now used first k) }
    {
        parts_fit();
        let id = self.id(used);
        let part = part_at(self.message.as_slice(), self.part_size, id, k + 1);
        let head = TcHead {
            apid: self.apid,
            count: count_behind(first, k),
            flags: 0,
            service: TRANSFER,
            subtype: subtype_of(part.kind),
            source: self.source,
        };
        tc_pieces(alloc, &head, &part.header(), part.octets)
    }

    // The identifier of the name behind so many.
    pub(crate) fn id(&self, used: u32) -> u16
        ensures { result ≡ id_of self.now used }
    {
        ((u64::from(self.names.first) + u64::from(used)) % 65_536) as u16
    }
}

// The sequence count behind so many packets, of which the first has this one.
pub(crate) fn count_behind(first: u16, many: u16) -> u16
    ensures behind { result ≡ behind first many }
    ensures fits { result ≤ 16383 }
{
    ((u32::from(first) + u32::from(many)) % COUNTS) as u16
}

// The message subtype of the telecommand that carries a part of this kind.
fn subtype_of(kind: Kind) -> u8
    ensures { result ≡ part_subtype Up kind }
{
    match kind {
        Kind::First => 9,
        Kind::Middle => 10,
        Kind::Last => 11,
    }
}
