//! What became of requests, in few words.

ghost use Rattle.std.specs.Prelude.{◌≡◌, ◌∷◌, ◌++◌, [], IfOk, OnOk, map};
ghost use Rattle.std.specs.Option.{option_to_list};
ghost use Rattle.lpt_ground_run.specs.Runs.{became, outcome_of, spread};

use lpt_ground::{Asked, FailureNotice, Fate};
use std::alloc::{AllocError, Global};

/// What became of a request, without the packet that settled it.
#[derive(Clone, Copy, Debug, PartialEq, Eq)]
pub enum Outcome {
    /// Nothing was heard that settles it.
    Open,
    /// A packet was heard that settles it.
    Done,
    /// It was reported as failed, with this notice.
    Failed(FailureNotice),
}

/// Requests one behind the other of which the same became.
#[derive(Clone, Copy, Debug, PartialEq, Eq)]
pub struct GroundRun {
    /// What became of them.
    pub outcome: Outcome,
    /// How many they are.
    pub count: u64,
}

/// What became of requests, in their order: as few runs as there can be. The only error is out of
/// memory.
pub fn runs_of(alloc: Global, asked: &[Asked]) -> Result<Vec<GroundRun>, AllocError>
    ensures { IfOk result (λ v. spread v.items ≡ map became asked.now) }
{
    let mut runs = Vec::new(alloc);
    for one in asked {
        add(&mut runs, outcome_of(&one.fate))?;
    }
    Ok(runs)
}

// What became of a request of this fate.
fn outcome_of(fate: &Fate) -> Outcome
    ensures { result ≡ outcome_of fate.now }
{
    match fate {
        Fate::Waiting => Outcome::Open,
        Fate::Done(_) => Outcome::Done,
        Fate::Failed(notice) => Outcome::Failed(*notice),
    }
}

// Adds a request of which this became. The only error is out of memory.
fn add(runs: &mut Vec<GroundRun>, outcome: Outcome) -> Result<(), AllocError>
    ensures { OnOk result (spread runs.new.items ≡ spread runs.old.items ++ outcome ∷ []) }
{
    let (before, run) = behind(runs.pop(), outcome);
    match before {
        None => runs.push(run)?,
        Some(before) => {
            runs.push(before)?;
            runs.push(run)?;
        }
    }
    Ok(())
}

// The last run behind which a request comes of which this became: what stays of it before, and the
// run of the request.
fn behind(last: Option<GroundRun>, outcome: Outcome) -> (Option<GroundRun>, GroundRun)
    ensures { spread (option_to_list result.0 ++ result.1 ∷ [])
        ≡ spread (option_to_list last) ++ outcome ∷ [] }
{
    match last {
        Some(last) if last.outcome == outcome && last.count < u64::MAX => {
            let count = last.count + 1;
            (None, GroundRun { outcome, count })
        }
        before => (before, GroundRun { outcome, count: 1 }),
    }
}
