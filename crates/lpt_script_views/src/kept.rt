//! Which parts of a message its receiver keeps.

ghost use Rattle.std.specs.Prelude.{◌≡◌, [], OnOk, IfOk};
ghost use Rattle.lpt_acts.specs.Acts.{act_of};
ghost use Rattle.lpt_world.specs.Worlds.{history};
ghost use Rattle.lpt_script_views.specs.Told.{told_by};
ghost use Rattle.lpt_script_views.specs.Kept.{kept_after, kept_now, kept_numbers};

use lpt_events::{Answer, Entry, Event, Outcome, Side};
use lpt_packet::{Direction, Name};
use lpt_world::World;
use std::alloc::{AllocError, Global};

// The numbers of the parts that are kept of a transaction, in the order in which they came.
#[tactic(auto, using(crate::proofs::ToldLemmas::kept_shown))]
pub(crate) fn kept_numbers(
    alloc: Global,
    world: &World,
    direction: Direction,
    name: Name,
) -> Result<Vec<u64>, AllocError>
    ensures { IfOk result (λ v. v.items ≡ kept_numbers direction name (history world.now)) }
{
    kept_by(alloc, world.journal(), direction, name)
}

// The same by the entries of a journal.
fn kept_by(
    alloc: Global,
    journal: &[Entry],
    direction: Direction,
    name: Name,
) -> Result<Vec<u64>, AllocError>
    ensures { IfOk result (λ v. v.items ≡ told_by (kept_after direction name) journal.now []) }
{
    let mut kept = Vec::new(alloc);
    for entry in journal {
        note(&mut kept, direction, name, entry)?;
    }
    Ok(kept)
}

// Notes what an entry says of the parts that are kept.
fn note(
    kept: &mut Vec<u64>,
    direction: Direction,
    name: Name,
    entry: &Entry,
) -> Result<(), AllocError>
    ensures { OnOk result (kept.new.items
        ≡ kept_after direction name (act_of entry.now.event) entry.now.reply.answer
        kept.old.items) }
{
    let answer = entry.reply.answer;
    match &entry.event {
        Event::Deliver(lane) => {
            if lane.direction() == direction {
                note_answer(kept, name, answer)?;
            }
        }
        Event::Expire(side) => {
            if *side == Side::receiver(direction) {
                note_answer(kept, name, answer)?;
            }
        }
        Event::Restart(side) => {
            if *side == Side::receiver(direction) {
                kept.clear();
            }
        }
        _ => {}
    }
    Ok(())
}

// Notes what the answer to an event at the receiver says.
fn note_answer(kept: &mut Vec<u64>, name: Name, answer: Answer) -> Result<(), AllocError>
    ensures { OnOk result (kept.new.items ≡ kept_now answer name kept.old.items) }
{
    match answer {
        Answer::Delivered(outcome) => note_outcome(kept, name, outcome),
        Answer::Expired(_, other) => {
            if other == name {
                kept.clear();
            }
            Ok(())
        }
        _ => Ok(()),
    }
}

// Notes what a delivery came to.
fn note_outcome(kept: &mut Vec<u64>, name: Name, outcome: Outcome) -> Result<(), AllocError>
    ensures { OnOk result
        (kept.new.items ≡ kept_now (Answer.Delivered outcome) name kept.old.items) }
{
    match outcome {
        Outcome::Kept(other, number) => {
            if other == name {
                kept.push(u64::from(number))?;
            }
        }
        Outcome::Released(other, _) | Outcome::Broken(other, _) => {
            if other == name {
                kept.clear();
            }
        }
        _ => {}
    }
    Ok(())
}
