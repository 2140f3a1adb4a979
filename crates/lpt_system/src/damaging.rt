//! What the link's noise leaves of packets.

ghost use Rattle.std.specs.Prelude.{◌≡◌, None, IfOk, OnErr};
ghost use Rattle.lpt_packet.specs.Numbers.{IsOctets};
ghost use Rattle.lpt_events.specs.Damages.{looks_whole};
ghost use Rattle.lpt_model.specs.Events.{refusal_of, after};

use crate::system::{System, put_one, put_reserved};
use lpt_events::{Answer, Event, Reply, StepFault, longest_on_link};
use lpt_packet::laws::seen_is_read;
use lpt_packet::{Direction, Octets, read_packet};
use std::alloc::AllocError;

impl System {
    ghost use Rattle.lpt_system.specs.SystemInside.{state_of};

    /// Why octets can't be put on the link as what its noise left.
    pub(crate) fn refusal_damage(&self, direction: Direction, octets: &Octets) -> Option<StepFault>
        ensures { result ≡ refusal_of self.now.config (state_of self.now) (Event.Damage direction octets.now) }
    {
        let octets = octets.as_slice();
        if octets.len() > longest_on_link(self.config.part_size) {
            return Some(StepFault::Long);
        }
        if can_be_read(octets) {
            return Some(StepFault::LooksWhole);
        }
        None
    }

    /// Puts on the link what its noise left. The only error is out of memory, and then nothing has
    /// changed.
    pub(crate) fn damage(
        &mut self,
        direction: Direction,
        octets: &Octets,
    ) -> Result<Reply, AllocError>
        requires { refusal_of self.old.config (state_of self.old) (Event.Damage direction octets.now) ≡ None }
        ensures ok { IfOk result (λ r. (state_of self.new, r)
            ≡ after self.old.config 0 (state_of self.old) (Event.Damage direction octets.now)) }
        ensures err { OnErr result (state_of self.new ≡ state_of self.old) }
        ensures config { self.new.config ≡ self.old.config }
    {
        self.link.reserve(1, None)?;
        let octets = octets.copy()?;
        let n = put_reserved(&mut self.link, direction, None, octets);
        Ok(put_one(n, Answer::Put(n)))
    }
}

// Whether octets are read as a packet or an idle one.
fn can_be_read(octets: &[u8]) -> bool
    requires { IsOctets octets.now }
    ensures { result ≡ looks_whole octets.now }
{
    seen_is_read();
    read_packet(octets).is_ok()
}
