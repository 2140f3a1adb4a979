//! What a job's file says is completed, and what standard error is told before each round.

use crate::ground_rounds::Rounds;
use crate::ground_told::Teller;
use crate::job_files::JobFront;
use lpt_ground_run::{Asked, Fate, Notes, RunCounts, kept_packets};
use lpt_io::{Failure, LastingFiles};

/// What is told and kept of a pass before each of its rounds.
#[derive(Drop)]
pub struct GroundNotes<R> {
    rt: R,
    /// Who tells what becomes of the pass.
    pub teller: Teller,
    /// What is kept in the job's file, if there is one and something is kept.
    pub job: Option<JobFront>,
    /// Whether that file was there: an earlier run of the job may have sent requests.
    pub goes_on: bool,
    /// Why it couldn't be written, if it couldn't.
    pub failure: Option<Failure>,
    // The round that was told last, and how many requests were settled before it.
    told_last: Option<(u64, usize)>,
    /// What was put and settled in each round, if that is told.
    pub rounds: Option<Rounds>,
}

impl<R: AllocGlobal + Copy> GroundNotes<R> {
    /// The notes of a pass that begins, whose job is kept so, if it is.
    pub fn begin(rt: &R, teller: Teller, job: Option<JobFront>) -> Self {
        let goes_on = match &job {
            Some(job) => job.goes_on,
            None => false,
        };
        let rounds = if teller.tells_rounds() {
            Some(Rounds::new(rt.alloc()))
        } else {
            None
        };
        GroundNotes {
            rt: *rt,
            teller,
            job,
            goes_on,
            failure: None,
            told_last: None,
            rounds,
        }
    }
}

impl<R: LastingFiles + AllocGlobal> GroundNotes<R> {
    // Writes the job's file, if there is one.
    fn write(&self, asked: &[Asked]) -> Result<(), Failure> {
        let Some(job) = &self.job else {
            return Ok(());
        };
        let kept: &[Asked] = if job.keeps { asked } else { &[] };
        let packets = kept_packets(self.rt.alloc(), kept)?;
        let mut octets = Vec::new(self.rt.alloc());
        octets.extend_from_slice(job.front.as_bytes())?;
        octets.extend_from_slice(&packets)?;
        self.rt.write_for_good(job.path.as_str(), &octets)
    }
}

impl<R: LastingFiles + Eprint + AllocGlobal> Notes for GroundNotes<R> {
    fn keep(&mut self, counts: RunCounts, asked: &[Asked]) -> bool {
        if let Some(rounds) = &mut self.rounds {
            rounds.note(counts, asked);
        }
        let settled = asked
            .iter()
            .filter(|one| !matches!(one.fate, Fate::Waiting))
            .count();
        // A round in which nothing went up is told once, as the next one.
        let round = counts.rounds.saturating_add(1);
        if self.told_last != Some((round, settled)) {
            self.teller
                .tell_round(&self.rt, settled, asked.len(), round);
        }
        self.told_last = Some((round, settled));
        match self.write(asked) {
            Ok(()) => true,
            Err(failure) => {
                self.failure = Some(failure);
                false
            }
        }
    }
}
