//! What can be asked of a world.

ghost use Rattle.std.specs.Prelude.{◌≡◌, IfOk};

use crate::{Lane, Side, Worker};
use lpt_packet::{Direction, Name, Octets};
use lpt_pus::AckFlags;
use std::alloc::AllocError;

/// One event: what a call asks of the world. It is done whole, or refused.
#[derive(Debug, Drop, PartialEq, Eq)]
pub enum Event {
    /// Hands a message of this name to the sender of its direction.
    Open(Direction, Name, Octets),
    /// Puts the part of this number of an open message on the link.
    Send(Direction, Name, u16),
    /// Puts a plain request on the link, direction up: ground's telecommand of this source, these
    /// flags, service type, message subtype and body. It belongs to no transaction.
    Plain(u16, AckFlags, u8, u8, Octets),
    /// Closes the open sender of this name in its direction and lets its message go.
    Finish(Direction, Name),
    /// Loses the held packet of this number: the link holds it no more. A lane that has it in its
    /// hand keeps it.
    Lose(u64),
    /// Puts octets on the link in this direction that are no packet: what the link's noise left of
    /// one. It may be nothing.
    Damage(Direction, Octets),
    /// Takes the held packet of this number into the lane's empty hand.
    Take(Lane, u64),
    /// Gives the packet in the lane's hand to the receiving node, and empties the hand.
    Deliver(Lane),
    /// Sets the clock of the node on this side one tick on.
    Tick(Side),
    /// Ends the reception at the node on this side that is due: of those that took no part for as
    /// long as the timeout, the one that has waited longest, and of equal ones that of the least
    /// name. The spacecraft puts a report of it on the link.
    Expire(Side),
    /// Gives a worker that has none the oldest released request that no worker has claimed.
    Claim(Worker),
    /// The worker has read its request, and hands the reading in.
    Commit(Worker),
    /// Executes the oldest released request, once its reading was handed in. The spacecraft puts
    /// its reports on the link, and opens a report of data that is too long for a packet there.
    Apply,
    /// Frees the transaction of this direction and name at both ends, so that the name can be opened
    /// again.
    Retire(Direction, Name),
    /// Restarts the node on this side: its open receptions are dropped and its open senders
    /// closed, its counts begin at 0 again, and the spacecraft forgets its released requests. The
    /// memories, what both ends know of names, the clock, the link, the hands and what the workers
    /// have stay.
    Restart(Side),
}

impl Event {
    /// A copy of the event, its octets on the allocator of this one's. The only error is out of
    /// memory.
    pub fn copy(&self) -> Result<Event, AllocError>
        ensures { IfOk result (λ e. e ≡ self.now) }
    {
        Ok(match self {
            Event::Open(direction, name, message) => Event::Open(
                *direction,
                *name,
                message.copy()?,
            ),
            Event::Send(direction, name, part) => Event::Send(*direction, *name, *part),
            Event::Plain(source, flags, service, subtype, body) => {
                Event::Plain(*source, *flags, *service, *subtype, body.copy()?)
            }
            Event::Finish(direction, name) => Event::Finish(*direction, *name),
            Event::Lose(number) => Event::Lose(*number),
            Event::Damage(direction, octets) => Event::Damage(*direction, octets.copy()?),
            Event::Take(lane, number) => Event::Take(*lane, *number),
            Event::Deliver(lane) => Event::Deliver(*lane),
            Event::Tick(side) => Event::Tick(*side),
            Event::Expire(side) => Event::Expire(*side),
            Event::Claim(worker) => Event::Claim(*worker),
            Event::Commit(worker) => Event::Commit(*worker),
            Event::Apply => Event::Apply,
            Event::Retire(direction, name) => Event::Retire(*direction, *name),
            Event::Restart(side) => Event::Restart(*side),
        })
    }
}
