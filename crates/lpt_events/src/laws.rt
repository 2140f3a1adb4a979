//! What holds of every event: functions whose bodies read a value and do nothing.

ghost use Rattle.lpt_packet.specs.Names.{IsName};
ghost use Rattle.lpt_events.specs.Events.{IsEvent};

use crate::Event;
use lpt_packet::Name;

impl Event {
    /// The event's numbers and octets are in the ranges of their types.
    pub fn numbers_are_in_range(&self)
        ensures { IsEvent self.now }
    {
        match self {
            Event::Open(_, name, message) => {
                names_are_in_range(*name);
                let _octets = message.as_slice();
            }
            Event::Send(_, name, k) => {
                names_are_in_range(*name);
                let _k = *k;
            }
            Event::Plain(source, flags, service, subtype, body) => {
                let _source = *source;
                let _flags = flags.bits();
                let _service = *service;
                let _subtype = *subtype;
                let _octets = body.as_slice();
            }
            Event::Finish(_, name) => {
                names_are_in_range(*name);
            }
            Event::Lose(_) => {}
            Event::Damage(_, octets) => {
                let _octets = octets.as_slice();
            }
            Event::Take(_, _) => {}
            Event::Deliver(_) => {}
            Event::Tick(_) => {}
            Event::Expire(_) => {}
            Event::Claim(_) => {}
            Event::Commit(_) => {}
            Event::Apply => {}
            Event::Retire(_, name) => {
                names_are_in_range(*name);
            }
            Event::Restart(_) => {}
        }
    }
}

// A name's numbers are of their types.
fn names_are_in_range(name: Name)
    ensures { IsName name }
{
    let _source = name.source;
    let _id = name.id;
}
