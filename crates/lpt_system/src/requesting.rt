//! Plain requests, which belong to no transaction.

ghost use Rattle.std.specs.Prelude.{◌≡◌, None, IfOk, OnErr};
ghost use Rattle.lpt_model.specs.Events.{refusal_of, after};

use crate::system::{System, put_one, put_reserved};
use lpt_events::{Answer, Event, Reply};
use lpt_packet::{Direction, Octets};
use lpt_pus::AckFlags;
use std::alloc::AllocError;

impl System {
    ghost use Rattle.lpt_system.specs.SystemInside.{state_of};

    /// Puts a plain request on the link. The only error is out of memory, and then nothing has
    /// changed.
    pub(crate) fn plain(
        &mut self,
        source: u16,
        flags: AckFlags,
        service: u8,
        subtype: u8,
        body: &Octets,
    ) -> Result<Reply, AllocError>
        requires { refusal_of self.old.config (state_of self.old) (Event.Plain source flags service subtype body.now) ≡ None }
        ensures ok { IfOk result (λ r. (state_of self.new, r)
            ≡ after self.old.config 0 (state_of self.old) (Event.Plain source flags service subtype body.now)) }
        ensures err { OnErr result (state_of self.new ≡ state_of self.old) }
        ensures config { self.new.config ≡ self.old.config }
    {
        self.link.reserve(1, None)?;
        match self
            .on_ground
            .plain(source, flags, service, subtype, body.as_slice())
        {
            Ok(octets) => {
                let n = put_reserved(&mut self.link, Direction::Up, None, octets);
                Ok(put_one(n, Answer::Put(n)))
            }
            Err(_) => Err(AllocError),
        }
    }
}
