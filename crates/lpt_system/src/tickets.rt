//! The jobs that the workers have.

ghost use Rattle.std.specs.Prelude.{◌≡◌, is_some, None};
ghost use Rattle.std.specs.Option.{option_map};
ghost use Rattle.lpt_model.specs.Tickets.{no_tickets, ticket_of, with_ticket};
ghost use Rattle.lpt_system.specs.TicketsInside.{job_of, tickets_of};

use lpt_events::Worker;
use lpt_packet::Octets;

/// A job that a worker has: its boot, its number in that boot, and its message.
#[derive(Drop)]
pub struct HeldJob {
    pub boot: u64,
    pub job: u64,
    pub message: Octets,
}

/// The job that each worker has.
#[derive(Drop)]
pub struct Tickets {
    pub w1: Option<HeldJob>,
    pub w2: Option<HeldJob>,
}

impl Tickets {
    /// No worker has a job.
    pub fn new() -> Tickets
        ensures { tickets_of result ≡ no_tickets }
    {
        Tickets { w1: None, w2: None }
    }

    /// Whether a worker has a job.
    pub fn has(&self, worker: Worker) -> bool
        ensures { result ≡ is_some (ticket_of (tickets_of self.now) worker) }
    {
        match worker {
            Worker::W1 => self.w1.is_some(),
            Worker::W2 => self.w2.is_some(),
        }
    }

    /// The job that a worker has.
    pub fn get(&self, worker: Worker) -> Option<&HeldJob>
        ensures { option_map (λ x. job_of x.now) result ≡ ticket_of (tickets_of self.now) worker }
    {
        match worker {
            Worker::W1 => self.w1.as_ref(),
            Worker::W2 => self.w2.as_ref(),
        }
    }

    /// Gives a job to a worker, or none.
    pub fn set(&mut self, worker: Worker, job: Option<HeldJob>)
        ensures { tickets_of self.new ≡ with_ticket (tickets_of self.old) worker (option_map job_of job) }
    {
        match worker {
            Worker::W1 => self.w1 = job,
            Worker::W2 => self.w2 = job,
        }
    }

    /// Takes a worker's job away.
    pub fn take(&mut self, worker: Worker) -> Option<HeldJob>
        ensures job { option_map job_of result ≡ ticket_of (tickets_of self.old) worker }
        ensures tickets { tickets_of self.new ≡ with_ticket (tickets_of self.old) worker None }
    {
        match worker {
            Worker::W1 => self.w1.take(),
            Worker::W2 => self.w2.take(),
        }
    }
}
