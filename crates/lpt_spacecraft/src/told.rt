//! What is told of what comes to the spacecraft's end.

ghost use Rattle.std.specs.Prelude.{◌≡◌};
ghost use Rattle.lpt_spacecraft.specs.Changes.{uses_name};

use lpt_events::{Applied, Outcome};
use lpt_packet::{Direction, Name};

/// What happened at the spacecraft's end.
#[derive(Clone, Copy)]
pub enum Told {
    /// A packet was taken: what became of it.
    Took(Outcome),
    /// A request was executed: what became of it.
    Did(Done),
    /// The reception of this name expired.
    GaveUp(Name),
    /// The name is free again.
    Freed(Direction, Name),
    /// This source has no free name left in this direction.
    UsedUp(Direction, u16),
    /// So many octets at this place were passed over: they are no packet.
    Skipped { place: u64, len: u64 },
}

/// What became of a packet, and of the request that it released, if it released one.
#[derive(Clone, Copy)]
pub struct Taken {
    /// What became of the packet.
    pub outcome: Outcome,
    /// What became of the request.
    pub done: Option<Done>,
}

/// What became of a request that was executed.
#[derive(Clone, Copy)]
pub struct Done {
    /// What its execution answers.
    pub applied: Applied,
    /// How many reports were sent, each in a packet.
    pub reports: usize,
    /// The name of the report that was sent in parts, and how many, if one was.
    pub sent: Option<(Name, u16)>,
    /// The memory that it wrote to, if it did.
    pub wrote: Option<u8>,
}

/// Who is told what happens.
pub trait Listener {
    ghost use Rattle.std.specs.Prelude.{◌∷◌, [], List, Option};
    ghost use Rattle.lpt_spacecraft.specs.declared.told.Told.{Told};
    ghost use Rattle.lpt_spacecraft.specs.Telling.{Hears};

    // What was told so far, if that is known.
    ghost heard: { Self → Option (List Told) };

    /// Is told something more.
    fn tell(&mut self, told: Told)
        ensures { Hears (heard self.old) (heard self.new) (told ∷ []) };
}

impl Told {
    ghost use Rattle.std.specs.Prelude.{◌≡◌};
    ghost use Rattle.lpt_spacecraft.specs.Telling.{name_used};
    ghost use Rattle.lpt_spacecraft.specs.Changes.{changes};
    ghost use Rattle.lpt_spacecraft.specs.Files.{writes_to};

    // The name that this has used up, with the direction of its message, if it has.
    pub(crate) fn name_used(&self) -> Option<(Direction, Name)>
        ensures { result ≡ name_used self.now }
    {
        match *self {
            Told::Took(Outcome::Released(name, _)) => Some((Direction::Up, name)),
            Told::Took(Outcome::Broken(name, _)) => Some((Direction::Up, name)),
            Told::GaveUp(name) => Some((Direction::Up, name)),
            Told::Did(done) => match done.sent {
                Some((name, _)) => Some((Direction::Down, name)),
                None => None,
            },
            _ => None,
        }
    }

    // Whether it says that the memory of this identifier was written.
    pub(crate) fn writes_to(&self, id: u8) -> bool
        ensures { result ≡ writes_to id self.now }
    {
        match *self {
            Told::Did(done) => done.wrote == Some(id),
            _ => false,
        }
    }

    // Whether it changes what is kept of a spacecraft.
    pub(crate) fn changes(&self) -> bool
        ensures { result ≡ changes self.now }
    {
        match *self {
            Told::Took(outcome) => uses_name(outcome),
            Told::Did(done) => done.wrote.is_some() || done.sent.is_some(),
            Told::GaveUp(_) => true,
            Told::Freed(_, _) => true,
            Told::UsedUp(_, _) => false,
            Told::Skipped { .. } => false,
        }
    }
}

// Whether a packet of which this became has used a name up.
fn uses_name(outcome: Outcome) -> bool
    ensures { result ≡ uses_name outcome }
{
    matches!(
        outcome,
        Outcome::Released(_, _) | Outcome::Broken(_, _) | Outcome::AbortNoted(_, _)
    )
}
