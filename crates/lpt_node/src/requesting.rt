//! Plain requests: telecommands besides the parts of messages.

ghost use Rattle.std.specs.Prelude.{◌≡◌, ◌+◌, ◌≤◌, length, None, IfOk, IfErr, IfNone, OnOk, OnErr};
ghost use Rattle.lpt_events.specs.declared.side.Side.TheVariants.{Ground};
ghost use Rattle.lpt_node.specs.Requests.{refusal_plain, plain_made};
ghost use Rattle.lpt_node.specs.Sending.{RefusedBy};

use crate::{Node, NodeFault};
use lpt_events::{longest_on_link, part_kind};
use lpt_packet::{Direction, ERROR_CONTROL, Octets, PRIMARY_HEADER};
use lpt_pus::{AckFlags, TC_HEADER, TcHead, tc_octets};

// The octets that stand around the body of a telecommand.
const AROUND_A_BODY: usize = PRIMARY_HEADER + TC_HEADER + ERROR_CONTROL;

impl Node {
    /// Makes the packet of a plain request: a telecommand of this source, service type, message
    /// subtype and body that carries no part. Ground alone makes them.
    ///
    /// Errors, with nothing changed, the first that applies: `PartRequest`, the service type is 13
    /// and the message subtype 9, 10 or 11, a part's; `Long`, the packet would have more octets than
    /// the part size and 23; `Memory`.
    pub fn plain(
        &mut self,
        source: u16,
        flags: AckFlags,
        service: u8,
        subtype: u8,
        body: &[u8],
    ) -> Result<Octets, NodeFault>
        requires { self.old.side ≡ Ground }
        ensures enabled { OnOk result (refusal_plain self.old.config service subtype (length body.now) ≡ None) }
        ensures ok { IfOk result (λ o. (self.new.at, o)
            ≡ plain_made self.old.config self.old.at source flags service subtype body.now) }

        ensures side { self.new.side ≡ self.old.side }
        ensures config { self.new.config ≡ self.old.config }

        ensures refused { IfErr result (λ e. RefusedBy (refusal_plain self.old.config service subtype (length body.now)) e) }
        ensures err { OnErr result (self.new.at ≡ self.old.at) }
    {
        if let Some(fault) = self.refusal_plain(service, subtype, body.len()) {
            return Err(fault);
        }
        let mut counts = self.counts;
        let head = TcHead {
            apid: self.config.apid,
            count: counts.count,
            flags: flags.bits(),
            service,
            subtype,
            source,
        };
        let Ok(packet) = tc_octets(self.alloc, &head, body) else {
            return Err(NodeFault::Memory);
        };
        counts.step();
        self.counts = counts;
        Ok(packet)
    }

    // Why a plain request with a body of this length isn't made.
    pub(crate) fn refusal_plain(&self, service: u8, subtype: u8, length: usize) -> Option<NodeFault>
        ensures value { result ≡ refusal_plain self.now.config service subtype length }
        ensures fits { IfNone result (length ≤ 1034) }
    {
        if part_kind(Direction::Up, service, subtype).is_some() {
            return Some(NodeFault::PartRequest);
        }
        if length > longest_on_link(self.config.part_size) - AROUND_A_BODY {
            return Some(NodeFault::Long);
        }
        None
    }
}
