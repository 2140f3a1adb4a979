//! Which jobs aren't executed, and how far each of them is.

ghost use Rattle.std.specs.Prelude.{◌≡◌, ◌≤◌, ◌<◌, ◌+◌, ◌++◌, ◌^◌, false, length, OnOk, string_bytes};
ghost use Rattle.lpt_acts.specs.Acts.{act_of};
ghost use Rattle.lpt_events.specs.declared.side.Side.TheVariants.{Craft};
ghost use Rattle.lpt_journal.specs.Jobs.{is_committed};
ghost use Rattle.lpt_journal.specs.Senders.{restarts};
ghost use Rattle.lpt_world.specs.Worlds.{history};
ghost use Rattle.lpt_script_views.specs.Jobs.{committed_after, counts_after, counts_of, job_line, job_row, jobs_text, none_counted, stage_of, stage_word};
ghost use Rattle.lpt_script_views.specs.Rows.{rows_text};
ghost use Rattle.lpt_script_views.specs.Told.{told_by};

use lpt_events::{Answer, Entry, Event, Side};
use lpt_world::World;
use std::alloc::AllocError;

/// How far a job is that isn't executed.
#[derive(Clone, Copy)]
pub(crate) enum Stage {
    /// No worker has claimed it.
    Waits,
    /// A worker has it.
    Claimed,
    /// What a worker read of it was handed in.
    Committed,
}

impl Stage {
    // Its word.
    fn word(self) -> &'static str
        ensures { result.now ≡ stage_word self }
    {
        match self {
            Stage::Waits => "waits",
            Stage::Claimed => "claimed",
            Stage::Committed => "committed",
        }
    }
}

/// What the spacecraft did.
#[derive(Clone, Copy)]
pub(crate) struct Counts {
    /// How often it was restarted.
    pub(crate) boot: u64,
    /// How many jobs were claimed since then.
    pub(crate) claimed: u64,
    /// How many of them were executed.
    pub(crate) applied: u64,
}

// Adds the jobs that aren't executed to a text.
pub(crate) fn add_jobs(text: &mut String, world: &World) -> Result<(), AllocError>
    ensures { OnOk result (string_bytes text.new ≡ string_bytes text.old ++ jobs_text world.now) }
{
    add_rows(text, world, counts_of(world), world.jobs_queued())
}

// Adds so many jobs, from the oldest on that isn't executed by these counts.
fn add_rows(text: &mut String, world: &World, counts: Counts, many: u64) -> Result<(), AllocError>
    ensures { OnOk result (string_bytes text.new ≡ string_bytes text.old
        ++ rows_text (job_row counts (history world.now)) counts.applied many) }
{
    for place in 0..many {
        let number = u128::from(counts.applied) + u128::from(place);
        add_job(text, world, counts, number)?;
    }
    Ok(())
}

// Adds the job of this number by these counts.
fn add_job(text: &mut String, world: &World, counts: Counts, number: u128) -> Result<(), AllocError>
    ensures { OnOk result (string_bytes text.new
        ≡ string_bytes text.old ++ job_row counts (history world.now) number) }
{
    add_line(
        text,
        counts.boot,
        number,
        stage_of(world, counts.claimed, number),
    )
}

// Adds a job by its boot and its number in it, and how far it is.
fn add_line(text: &mut String, boot: u64, number: u128, stage: Stage) -> Result<(), AllocError>
    ensures { OnOk result (string_bytes text.new
        ≡ string_bytes text.old ++ job_line boot number stage) }
{
    let stage = stage.word();
    write!(text, "job {boot} {number} {stage}\n")
}

// How far the job of this number is, if so many were claimed.
fn stage_of(world: &World, claimed: u64, number: u128) -> Stage
    ensures { result ≡ stage_of (history world.now) claimed number }
{
    if u128::from(claimed) <= number {
        Stage::Waits
    } else if is_committed(world, number) {
        Stage::Committed
    } else {
        Stage::Claimed
    }
}

// What the spacecraft of a world did.
#[tactic(auto, using(crate::proofs::ToldLemmas::counts_shown))]
fn counts_of(world: &World) -> Counts
    ensures { result ≡ counts_of (history world.now) }
{
    counted(world.journal())
}

// The same by the entries of a journal.
fn counted(journal: &[Entry]) -> Counts
    ensures { result ≡ told_by counts_after journal.now none_counted }
{
    let mut counts = Counts {
        boot: 0,
        claimed: 0,
        applied: 0,
    };
    for entry in journal {
        counts = counts_after(counts, entry);
    }
    counts
}

// The counts behind an entry.
fn counts_after(counts: Counts, entry: &Entry) -> Counts
    requires boots { counts.boot + 1 < 2 ^ 64 }
    requires claims { counts.claimed + 1 < 2 ^ 64 }
    requires applies { counts.applied + 1 < 2 ^ 64 }
    ensures value { result ≡ counts_after (act_of entry.now.event) entry.now.reply.answer counts }

    // Each of them grows by one at most.
    ensures boot { result.boot ≤ counts.boot + 1 }
    ensures claimed { result.claimed ≤ counts.claimed + 1 }
    ensures applied { result.applied ≤ counts.applied + 1 }
{
    match &entry.event {
        Event::Restart(Side::Craft) => Counts {
            boot: counts.boot + 1,
            claimed: 0,
            applied: 0,
        },
        Event::Claim(_) => Counts {
            claimed: counts.claimed + 1,
            ..counts
        },
        Event::Apply => Counts {
            applied: counts.applied + 1,
            ..counts
        },
        _ => counts,
    }
}

// Whether the reading of the job of this number was handed in.
#[tactic(auto, using(crate::proofs::ToldLemmas::committed_shown))]
fn is_committed(world: &World, number: u128) -> bool
    ensures { result ≡ is_committed (history world.now) number }
{
    committed_by(world.journal(), number)
}

// The same by the entries of a journal.
fn committed_by(journal: &[Entry], number: u128) -> bool
    ensures { result ≡ told_by (committed_after number) journal.now false }
{
    let mut is_committed = false;
    for entry in journal {
        is_committed = committed_after(number, entry, is_committed);
    }
    is_committed
}

// The same behind an entry.
fn committed_after(number: u128, entry: &Entry, before: bool) -> bool
    ensures { result
        ≡ committed_after number (act_of entry.now.event) entry.now.reply.answer before }
{
    if restarts_craft(&entry.event) {
        return false;
    }
    match entry.reply.answer {
        Answer::Committed(_, job) => u128::from(job) == number || before,
        _ => before,
    }
}

// Whether an event restarts the spacecraft.
fn restarts_craft(event: &Event) -> bool
    ensures { result ≡ restarts (act_of event.now) Craft }
{
    match event {
        Event::Restart(side) => *side == Side::Craft,
        _ => false,
    }
}
