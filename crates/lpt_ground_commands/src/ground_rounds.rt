//! What went up in each round of a pass, and what was settled in it.

ghost use Rattle.std.specs.Prelude.{◌≤◌};

use crate::ground_puts::Puts;
use lpt_ground_run::{Asked, Fate, RunCounts};
use std::alloc::{AllocError, Global};

/// What becomes of the requests of a pass, round by round.
#[derive(Drop)]
pub struct Rounds {
    alloc: Global,
    // How many packets went up before each round, and before the end.
    begins: Vec<u64>,
    // The requests, with what became of them so far.
    settled: Vec<Settled>,
    // Whether memory ran out for some of it.
    short: bool,
}

// What became of a request, and in which round that was heard: 0 before the first.
#[derive(Clone, Copy)]
enum Settled {
    // It waits.
    Open,
    // It was reported as completed.
    Done(u64),
    // It was reported as failed.
    Failed(u64),
}

impl Rounds {
    /// What is known before a pass.
    pub fn new(alloc: Global) -> Rounds {
        Rounds {
            alloc,
            begins: Vec::new(alloc),
            settled: Vec::new(alloc),
            short: false,
        }
    }

    /// Notes, before a round and at the end of a pass, what was counted and what became of its
    /// requests.
    pub fn note(&mut self, counts: RunCounts, asked: &[Asked]) {
        if self.keep(counts, asked).is_err() {
            self.short = true;
        }
    }

    // The same: what is new was heard in the round before. The only error is out of memory.
    fn keep(&mut self, counts: RunCounts, asked: &[Asked]) -> Result<(), AllocError> {
        if self.begins.last() != Some(&counts.up) {
            self.begins.push(counts.up)?;
        }
        if self.settled.is_empty() {
            self.settled.resize(asked.len(), Settled::Open)?;
        }
        for (place, one) in asked.iter().enumerate() {
            if let Some(settled) = self.settled.get_mut(place) {
                *settled = settled_as(*settled, &one.fate, counts.rounds);
            }
        }
        Ok(())
    }

    /// The lines that tell the rounds of a pass that has ended, in which this was put. From now on
    /// it is known of the next one what was known before this. The only error is out of memory.
    pub fn take_lines(&mut self, puts: &mut Puts) -> Result<String, AllocError> {
        let Rounds {
            alloc,
            begins,
            settled,
            short,
        } = std::mem::replace(self, Rounds::new(self.alloc));
        let (places, is_whole) = puts.take(alloc);
        if short || !is_whole {
            return Err(AllocError);
        }
        let mut text = String::new(alloc);
        let mut round = 0;
        for (number, begin) in begins.iter().enumerate() {
            let next = begins.get(number.saturating_add(1));
            let end = place_of(next.copied().unwrap_or(u64::MAX), places.len());
            let begin = place_of(*begin, end);
            if begin < end {
                round = u64::saturating_add(round, 1);
                add_round(alloc, &mut text, round, &places[begin..end], &settled)?;
            }
        }
        Ok(text)
    }
}

// What became of a request by now; if that is new, it was heard in this round.
fn settled_as(before: Settled, fate: &Fate, round: u64) -> Settled {
    match (before, fate) {
        (Settled::Open, Fate::Done(_)) => Settled::Done(round),
        (Settled::Open, Fate::Failed(_)) => Settled::Failed(round),
        (before, _) => before,
    }
}

// So many, but no more than there are.
fn place_of(many: u64, all: usize) -> usize
    ensures { result ≤ all }
{
    usize::try_from(many).unwrap_or(all).min(all)
}

// Adds the line of a round in which the requests at these places went up, of those that were
// settled so. The only error is out of memory.
fn add_round(
    alloc: Global,
    text: &mut String,
    round: u64,
    places: &[usize],
    settled: &[Settled],
) -> Result<(), AllocError> {
    let mut sent = none_of(alloc, settled.len())?;
    for place in places {
        mark(&mut sent, *place);
    }
    let mut done = none_of(alloc, settled.len())?;
    let mut failed = none_of(alloc, settled.len())?;
    for (place, one) in settled.iter().enumerate() {
        match one {
            Settled::Done(heard) if *heard == round => mark(&mut done, place),
            Settled::Failed(heard) if *heard == round => mark(&mut failed, place),
            _ => {}
        }
    }
    let (sent, done, failed) = (
        list_of(alloc, &sent)?,
        list_of(alloc, &done)?,
        list_of(alloc, &failed)?,
    );
    text.write(format_args!(
        "{{\"round\":{round},\"sent\":\"{sent}\",\"completed\":\"{done}\",\"failed\":\"{failed}\"}}\n"
    ))
}

// That none of so many is among them. The only error is out of memory.
fn none_of(alloc: Global, many: usize) -> Result<Vec<bool>, AllocError> {
    let mut marks = Vec::new(alloc);
    marks.resize(many, false)?;
    Ok(marks)
}

// What is at this place is among them, if there is such a place.
fn mark(marks: &mut [bool], place: usize) {
    if place < marks.len() {
        marks[place] = true;
    }
}

// The numbers of what is among them, from 1 on, as `3,9,14-15`. The only error is out of memory.
fn list_of(alloc: Global, marks: &[bool]) -> Result<String, AllocError> {
    let mut text = String::new(alloc);
    let mut begun = None;
    for (place, is_marked) in marks.iter().enumerate() {
        match (begun, *is_marked) {
            (None, true) => begun = Some(place),
            (Some(first), false) => {
                add_run(&mut text, first, place)?;
                begun = None;
            }
            _ => {}
        }
    }
    if let Some(first) = begun {
        add_run(&mut text, first, marks.len())?;
    }
    Ok(text)
}

// Adds the numbers of the places from one up to, not including, another. The only error is out of
// memory.
fn add_run(text: &mut String, first: usize, end: usize) -> Result<(), AllocError> {
    if !text.is_empty() {
        text.push_str(",")?;
    }
    let first = first.saturating_add(1);
    if first < end {
        text.write(format_args!("{first}-{end}"))
    } else {
        text.write(format_args!("{first}"))
    }
}
