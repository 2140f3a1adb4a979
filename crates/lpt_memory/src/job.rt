//! A job on its way from the queue to a worker and back: a ticket, then its reading.

ghost use Rattle.std.specs.Prelude.{◌≡◌, MatchResult};

use crate::request::Plan;
use crate::{Memories, Shape, meaning, reply};
use lpt_packet::Octets;
use lpt_pus::TcHead;
use std::alloc::Global;
use std::marker::Model;

/// A job that a worker has taken. It can't be dropped: `prepare`, `into_message` or `abandon` spends
/// it.
pub struct Ticket {
    boot: u64,
    job: u64,
    message: Octets,
}

impl Model for Ticket {
    ghost use Rattle.lpt_memory.specs.Readings.{Job};

    ghost Value = { Job };

    ghost view = { λ a. record { boot = a.boot; job = a.job; message = a.message } };
}

/// What a message means for memories of some shape, at a node with some APID.
#[derive(Drop)]
pub struct Reading {
    apid: u16,
    shape: Shape,
    message: Octets,
    head: Option<TcHead>,
    plan: Plan,
}

impl Model for Reading {
    ghost use Rattle.std.specs.Prelude.{◌≡◌};
    ghost use Rattle.lpt_memory.specs.Readings.{Source};

    ghost Value = { Source };

    ghost use Rattle.lpt_memory.specs.Readings.{IsHeadIn};
    ghost use Rattle.lpt_memory.specs.Meanings.{meaning};
    ghost use Rattle.lpt_memory.specs.Seen.{body_of, plan_meaning, IsWithin, IsCounted};

    ghost view = { λ a. record { apid = a.apid; sizes = a.shape; message = a.message } };

    ghost invariant = { λ a. (plan_meaning (body_of a.message) a.plan
        ≡ meaning a.apid a.shape a.message)
        × IsWithin (body_of a.message) a.plan
        × IsCounted a.plan
        × IsHeadIn a.head a.apid a.message };
}

/// A job whose message was read. It can't be dropped: `reading` or `abandon` spends it.
pub struct Prepared {
    boot: u64,
    job: u64,
    reading: Reading,
}

impl Model for Prepared {
    ghost use Rattle.lpt_memory.specs.Readings.{ReadJob};

    ghost Value = { ReadJob };

    ghost view = { λ a. record { boot = a.boot; job = a.job; read = a.reading } };
}

impl Ticket {
    /// The ticket of a job: the boot that it is of, its number in that boot, and its message.
    pub fn new(boot: u64, job: u64, message: Octets) -> Ticket
        ensures { result ≡ record { boot = boot; job = job; message = message } }
    {
        Ticket { boot, job, message }
    }

    /// The boot that the job is of.
    pub fn boot(&self) -> u64
        ensures { result ≡ self.now.boot }
    {
        self.boot
    }

    /// The job's number in its boot.
    pub fn job(&self) -> u64
        ensures { result ≡ self.now.job }
    {
        self.job
    }

    /// The job's message.
    pub fn message(&self) -> &[u8]
        ensures { result.now ≡ self.now.message }
    {
        self.message.as_slice()
    }

    /// The job's message, for which the ticket is given up.
    pub fn into_message(self) -> Octets
        ensures { result ≡ self.message }
    {
        let Ticket {
            boot: _,
            job: _,
            message,
        } = self;
        message
    }

    /// Gives the job up. It has no clause: nothing is left of the ticket.
    pub fn abandon(self) {
        let Ticket {
            boot: _,
            job: _,
            message: _,
        } = self;
    }
}

/// Reads the message of a job, for memories of this shape at a node with this APID. The message
/// isn't copied: the reading owns it, and has the areas of a load by their places.
///
/// Errors: out of memory, which gives the ticket back.
#[tactic(auto, unfolding(crate::specs::Meanings::meaning))]
pub fn prepare(alloc: Global, shape: &Shape, apid: u16, ticket: Ticket) -> Result<Prepared, Ticket>
    ensures { MatchResult result
        (λ p. p ≡ record {
          boot = ticket.boot;
          job = ticket.job;
          read = record {
            apid = apid;
            sizes = shape.now;
            message = ticket.message;
          };
        })
        (λ t. t ≡ ticket) }
{
    let Ok(copy) = shape.copy() else {
        return Err(ticket);
    };
    let octets = ticket.message.as_slice();
    let head = meaning::head_in(apid, octets);
    let body = meaning::body_of(octets);
    let Ok(plan) = meaning::plan(alloc, shape.sizes(), head, body) else {
        return Err(ticket);
    };
    let Ticket { boot, job, message } = ticket;
    let reading = Reading {
        apid,
        shape: copy,
        message,
        head,
        plan,
    };
    Ok(Prepared { boot, job, reading })
}

impl Prepared {
    ghost use Rattle.std.specs.Prelude.{◌↔◌, IsTrue};
    ghost use Rattle.lpt_memory.specs.Memories.{sizes_of};

    /// The boot that the job is of.
    pub fn boot(&self) -> u64
        ensures { result ≡ self.now.boot }
    {
        self.boot
    }

    /// The job's number in its boot.
    pub fn job(&self) -> u64
        ensures { result ≡ self.now.job }
    {
        self.job
    }

    /// Whether it is the reading of this job's message, for this APID and memories of this shape.
    pub fn is_of(&self, boot: u64, job: u64, message: &[u8], apid: u16, memories: &Memories) -> bool
        ensures { IsTrue result ↔ (self.now ≡ record {
          boot = boot;
          job = job;
          read = record {
            apid = apid;
            sizes = sizes_of memories.now;
            message = message.now;
          };
        }) }
    {
        let same_shape = memories.has_shape(&self.reading.shape);
        self.boot == boot
            && self.job == job
            && self.reading.apid == apid
            && same_shape
            && self.reading.message.as_slice() == message
    }

    /// The reading of the job's message.
    pub fn reading(self) -> Reading
        ensures { result ≡ self.read }
    {
        let Prepared {
            boot: _,
            job: _,
            reading,
        } = self;
        reading
    }

    /// Gives the job up. It has no clause: nothing is left of it.
    pub fn abandon(self) {
        let Prepared {
            boot: _,
            job: _,
            reading: _,
        } = self;
    }
}

impl Reading {
    ghost use Rattle.std.specs.Prelude.{◌≡◌, ◌≤◌, IfSome};
    ghost use Rattle.lpt_memory.specs.Effects.{answer, reply_length, length_replied};
    ghost use Rattle.lpt_memory.specs.Memories.{Contents, sizes_of};
    ghost use Rattle.lpt_memory.specs.Readings.{source_meaning, IsHeadIn};
    ghost use Rattle.lpt_memory.specs.Seen.{body_of, plan_meaning, IsWithin, IsCounted};

    /// The head of the telecommand that the message is, or `None` if it is none for the APID:
    /// its acknowledgement flags, its source, and what its request ID is made of. `prepare` has
    /// read it.
    pub fn head(&self) -> Option<TcHead>
        ensures { IsHeadIn result self.now.apid self.now.message }
    {
        self.head
    }

    /// How many octets the body of the reply to the message has, at most 65,523. `None` if it has
    /// no reply: it is no telecommand, has a fault or is a load. It takes no memory.
    pub fn reply_len(&self) -> Option<usize>
        ensures meant { result ≡ reply_length (source_meaning self.now) }
        ensures fits { IfSome result (λ n. n ≤ 65523) }

        // The reply of any memories of that shape has so many.
        ensures answer { (ms : Contents) → self.now.sizes ≡ sizes_of ms
            → length_replied (answer (source_meaning self.now) ms) ≡ result }
    {
        reply::reply_len(self.plan())
    }

    // What stands where the message has its body.
    pub(crate) fn body(&self) -> &[u8]
        ensures { result.now ≡ body_of self.now.message }
    {
        meaning::body_of(self.message.as_slice())
    }

    // What the message means.
    pub(crate) fn plan(&self) -> &Plan
        ensures seen { plan_meaning (body_of self.now.message) result.now
            ≡ source_meaning self.now }
        ensures within { IsWithin (body_of self.now.message) result.now }
        ensures counted { IsCounted result.now }
    {
        &self.plan
    }
}
