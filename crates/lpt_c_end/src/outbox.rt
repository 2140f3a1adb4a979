//! The packets that are to be sent.

ghost use Rattle.std.specs.Prelude.{◌≡◌, ◌<◌, ◌++◌, option_to_list, OnOk};
ghost use Rattle.std.specs.VecDeque.{deque_len, deque_capacity};
ghost use Rattle.lpt_c_end.specs.Changes.{IsLetGo, IsSame};
ghost use Rattle.lpt_c_end.specs.Codes.{answer};
ghost use Rattle.lpt_c_end.specs.Refusals.{sent_refusal};

use crate::codes::{DONE, NOTHING};
use crate::end::End;
use lpt_packet::Octets;
use std::alloc::AllocError;
use std::collections::VecDeque;

impl End {
    /// Makes the place of one packet more. The only error is out of memory.
    pub(crate) fn make_place(&mut self) -> Result<(), AllocError>
        ensures same { IsSame self.old self.new }
        ensures room { OnOk result (deque_len self.new.outbox < deque_capacity self.new.outbox) }
    {
        self.outbox.reserve(1)
    }

    /// Lets the first packet go that is to be sent.
    pub(crate) fn let_go(&mut self) -> u32
        ensures code { result ≡ answer (sent_refusal self.old) }
        ensures done { result ≡ 0 → IsLetGo self.old self.new }
        ensures refused { ¬ (result ≡ 0) → IsSame self.old self.new }
    {
        match self.outbox.pop_front() {
            Some(_) => DONE,
            None => NOTHING,
        }
    }
}

// Puts a packet, if there is one, behind those that are to be sent.
pub(crate) fn put_last(outbox: &mut VecDeque<Octets>, packet: Option<Octets>)
    requires { deque_len outbox.old < deque_capacity outbox.old }
    ensures { outbox.new.items ≡ outbox.old.items ++ option_to_list packet }
{
    match packet {
        Some(packet) => outbox.push_back_reserved(packet),
        None => {}
    }
}
