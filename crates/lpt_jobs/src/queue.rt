//! The queue.

ghost use Rattle.std.specs.Prelude.{◌≡◌, ◌+◌, ◌-◌, ◌<◌, ◌^◌, ◌∷◌, length, Some, IsSome, IsTrue, IfErr, OnOk, OnErr};
ghost use Rattle.std.specs.Option.{option_map, option_copied};
ghost use Rattle.lpt_jobs.specs.declared.job.Job.TheVariants.{Committed};
ghost use Rattle.lpt_jobs.specs.Jobs.{no_jobs, jobs_numbered, job_at, claimed_in, oldest_unclaimed, is_claimed, head, head_of, is_ready, after_push, after_claim, after_commit, without_front, AreInOrder, IsPushed};

use crate::Front;
use crate::job::Job;
use lpt_memory::Reading;
use lpt_packet::Octets;
use std::alloc::{AllocFailed, Global};
use std::collections::VecDeque;
use std::marker::Model;
use std::mem;

/// The jobs that aren't executed yet, each as far as it has come.
#[derive(Drop)]
pub struct JobQueue {
    // The number of the job at the front, or of the next one if there is none.
    first: u64,
    // The oldest first.
    jobs: VecDeque<Job>,
    // How many at the front were claimed. All others wait.
    claimed: usize,
}

impl Model for JobQueue {
    ghost use Rattle.lpt_jobs.specs.Codes.{coded_jobs};
    ghost use Rattle.lpt_jobs.specs.Jobs.{Jobs};
    ghost use Rattle.lpt_jobs.specs.JobsInside.{IsKept};

    ghost Value = { Jobs };

    ghost coded = { coded_jobs };

    ghost view = { λ q. record { first = q.first; jobs = q.jobs.items } };

    ghost invariant = { λ q. IsKept q.first q.jobs.items q.claimed };
}

impl JobQueue {
    /// No jobs, in a boot that hasn't numbered one. It takes no memory.
    pub fn new(alloc: Global) -> JobQueue
        ensures { result ≡ no_jobs }
    {
        JobQueue {
            first: 0,
            jobs: VecDeque::new(alloc),
            claimed: 0,
        }
    }

    /// How many jobs have got a number in this boot, executed ones among them. It is the number of
    /// the next job.
    pub fn jobs_numbered(&self) -> u64
        ensures { result ≡ jobs_numbered self.now }
    {
        self.first + self.jobs.len() as u64
    }

    /// How many jobs aren't executed yet.
    pub fn len(&self) -> usize
        ensures { result ≡ length self.now.jobs }
    {
        self.jobs.len()
    }

    /// How many jobs wait: no worker has claimed them.
    pub fn waiting(&self) -> usize
        ensures { result ≡ length self.now.jobs - claimed_in self.now.jobs }
    {
        self.jobs.len() - self.claimed
    }

    /// The number and the message of the oldest job that waits. `None` if none does.
    pub fn oldest_unclaimed(&self) -> Option<(u64, &Octets)>
        ensures value { option_map (λ x. (x.0, x.1.now)) result ≡ oldest_unclaimed self.now }

        // Behind the oldest job that waits, all wait.
        ensures order { AreInOrder self.now.jobs }
    {
        match self.jobs.get(self.claimed)? {
            Job::Waiting(message) => Some((self.first + self.claimed as u64, message)),
            Job::Claimed | Job::Committed(_) => None,
        }
    }

    /// Whether the job of this number is claimed, and no reading of it committed. A number that no
    /// job has now is answered with no.
    pub fn is_claimed(&self, number: u64) -> bool
        ensures { result ≡ is_claimed self.now number }
    {
        match self.job(number) {
            Some(job) => matches!(job, Job::Claimed),
            None => false,
        }
    }

    /// What stands at the front.
    pub fn front(&self) -> Front<'_>
        ensures { head result ≡ head_of self.now.jobs }
    {
        let Some(job) = self.jobs.front() else {
            return Front::Empty;
        };
        match job {
            Job::Waiting(_) | Job::Claimed => Front::NotReady,
            Job::Committed(reading) => Front::Ready(reading),
        }
    }

    /// Adds the job of a released message, with the next number.
    ///
    /// Errors: out of memory alone, which gives the message back. Then nothing has changed.
    pub fn push(&mut self, message: Octets) -> Result<(), Octets>
        requires { jobs_numbered self.old + 1 < 2 ^ 64 }
        ensures ok { OnOk result (self.new ≡ after_push self.old message) }
        ensures back { IfErr result (λ m. m ≡ message) }
        ensures err { OnErr result (self.new ≡ self.old) }
    {
        match self.jobs.push_back(Job::Waiting(message)) {
            Ok(()) => Ok(()),
            Err(
                AllocFailed {
                    value: Job::Waiting(message),
                },
            ) => Err(message),
            Err(_) => unreachable!(),
        }
    }

    /// Takes the youngest job out, which must wait, and gives its message. Its number is given
    /// again.
    pub fn pop_back(&mut self) -> Octets
        requires { IsPushed self.old }
        ensures { self.old ≡ after_push self.new result }
    {
        let Some(Job::Waiting(message)) = self.jobs.pop_back() else {
            unreachable!()
        };
        message
    }

    /// Claims the oldest job that waits, of which there must be one, and gives its number and its
    /// message, which is moved out. It takes no memory.
    pub fn claim(&mut self) -> (u64, Octets)
        requires { IsSome (oldest_unclaimed self.old) }
        ensures job { oldest_unclaimed self.old ≡ Some result }
        ensures left { self.new ≡ after_claim self.old }
    {
        let number = self.first + self.claimed as u64;
        let oldest = mem::replace(&mut self.jobs[self.claimed], Job::Claimed);
        self.claimed += 1;
        let Job::Waiting(message) = oldest else {
            unreachable!()
        };
        (number, message)
    }

    /// Commits a reading of the job of this number, which must be claimed.
    pub fn commit(&mut self, number: u64, reading: Reading)
        requires { IsTrue (is_claimed self.old number) }
        ensures { self.new ≡ after_commit self.old number reading }
    {
        let place = (number - self.first) as usize;
        self.jobs[place] = Job::Committed(reading);
    }

    /// Takes the job at the front out, which must be ready, and gives its reading.
    pub fn pop_front(&mut self) -> Reading
        requires { IsTrue (is_ready (head_of self.old.jobs)) }
        ensures front { self.old.jobs ≡ Committed result ∷ self.new.jobs }
        ensures left { self.new ≡ without_front self.old }
    {
        let Some(Job::Committed(reading)) = self.jobs.pop_front() else {
            unreachable!()
        };
        self.first += 1;
        self.claimed -= 1;
        reading
    }

    /// Drops all jobs, and begins their numbers at 0 again.
    pub fn clear(&mut self)
        ensures { self.new ≡ no_jobs }
    {
        self.first = 0;
        self.jobs.clear();
        self.claimed = 0;
    }

    // The job of this number.
    fn job(&self, number: u64) -> Option<&Job>
        ensures { option_copied result ≡ job_at self.now number }
    {
        let place = number.checked_sub(self.first)?;
        self.jobs.get(place as usize)
    }
}
