//! Calling `lpt_reception`: what becomes of a reception when a part comes.

ghost use Rattle.std.specs.Prelude.{◌≡◌};
ghost use Rattle.lpt_reception.specs.Steps.{part_kept};
ghost use Rattle.lpt_examples.specs.Hearing.{Hears};

use lpt_packet::Octets;
use lpt_part::{Part, Reason};
use lpt_reception::{Filling, Step};

/// What became of a reception when a part came.
#[derive(Drop)]
pub enum Heard {
    /// The part was kept, and parts are still missing.
    Kept(Filling),
    /// The part was kept before, so nothing has changed.
    Again(Filling),
    /// All parts are there: this is the message.
    Whole(Octets),
    /// The part contradicts those that were kept. The reception is over.
    Conflict(Reason),
    /// Memory is out. The reception is as it was, and the part can be given to it again.
    NoMemory(Filling),
}

/// Gives a part to the reception of its transaction.
pub fn hear(filling: Filling, part: &Part<'_>) -> Heard
    requires id { part.now.id ≡ filling.id }
    requires p { part.now.p ≡ filling.p }
    ensures { Hears filling part.now.number (part_kept part.now) result }
{
    match filling.accept(part) {
        Step::Filling(filling) => Heard::Kept(filling),
        Step::Again(filling) => Heard::Again(filling),
        Step::NoMemory(filling) => Heard::NoMemory(filling),
        Step::Conflict(broken) => Heard::Conflict(broken.abort()),
        Step::Whole(whole) => match whole.release() {
            Ok(message) => Heard::Whole(message),
            // This error never comes. But a whole reception can't be dropped, so it is given back.
            Err(whole) => Heard::NoMemory(whole.back()),
        },
    }
}
