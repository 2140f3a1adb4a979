//! What is kept of one name.

ghost use Rattle.std.specs.Prelude.{◌≡◌, ◌≤◌, ◌==◌, Bool, Option, None, length, IfOk, OnOk};
ghost use Rattle.std.specs.Option.{option_map};
ghost use Rattle.lpt_packet.specs.Sizes.{longest_packet};
ghost use Rattle.lpt_part.specs.Parts.{Piece};
ghost use Rattle.lpt_layout.specs.Parts.{piece};
ghost use Rattle.lpt_carried.specs.declared.reading.Reading.{Reading};
ghost use Rattle.lpt_layout_join.specs.Came.{Came, highest, message_of, nothing_came};
ghost use Rattle.lpt_layout_join.specs.CameInside.{Shows};
ghost use Rattle.lpt_layout_each.specs.Eaches as each;
ghost use Rattle.lpt_layout_each.specs.Helds.{Holds, IsTurnOfAll, ShowsSome, Takes};

use crate::NewsAs;
use crate::turn::{Turn, alone, turn_with};
use lpt_carried::Reading;
use lpt_layout::{Octets, PartAs};
use lpt_layout_join::CameAs;
use std::alloc::{AllocError, Global};
use std::mem;

/// The last message of a name, and what came behind it in any order.
#[derive(Drop)]
pub(crate) struct HeldAs {
    // The parts of the last whole message.
    pub(crate) last: Option<CameAs>,
    // All parts that came behind it, as long as they may be parts of one message.
    pub(crate) all: Option<CameAs>,
    // Those of them that aren't parts of it.
    pub(crate) rest: CameAs,
}

impl HeldAs {
    // Nothing came behind this message.
    pub(crate) fn behind(alloc: Global, last: Option<CameAs>) -> HeldAs
        ensures { (l : Option Came) → ShowsSome l last
            → Holds (each.held_begun l nothing_came) result }
    {
        let all = match &last {
            None => None,
            Some(_) => Some(CameAs::new(alloc)),
        };
        HeldAs {
            last,
            all,
            rest: CameAs::new(alloc),
        }
    }

    // Whether nothing is left of what came.
    pub(crate) fn is_empty(&self) -> bool
        ensures { (c : Came) → Shows c self.now.rest → result ≡ (highest c.parts == 0) }
    {
        self.rest.highest() == 0
    }

    // What is left.
    pub(crate) fn into_new(self) -> CameAs
        ensures { result ≡ self.rest }
    {
        self.rest
    }

    // Takes a part of the name, and gives what is told of it. The only error is out of memory.
    pub(crate) fn take(
        &mut self,
        alloc: Global,
        reading: &Reading,
        any: bool,
        again: bool,
        place: u64,
        part: &PartAs<'_>,
    ) -> Result<Option<NewsAs>, AllocError>
        requires number { 1 ≤ part.now.number }
        requires short { length part.now.octets.now ≤ longest_packet }
        ensures { (h : each.Held) → Holds h self.old → IfOk result (λ news.
            Takes (self.new, news) (each.gather reading.now any again h (piece part.now))) }
    {
        let old = is_old(&self.last, part);
        let all = turn_of_all(alloc, reading, any, place, &mut self.all, part)?;
        if old {
            return Ok(self.go_by_all(alloc, all));
        }
        match turn_with(alloc, reading, any, place, &mut self.rest, part)? {
            Turn::Waits => Ok(self.go_by_all(alloc, all)),
            Turn::Broken => {
                let next = begin(alloc, self.last.take(), place, part)?;
                let before = mem::replace(self, next);
                Ok(Some(NewsAs::Dropped(before.rest)))
            }
            Turn::Unfit(misfit) => {
                *self = begin_after(alloc, again, self.last.take(), place, part)?;
                Ok(Some(NewsAs::Unfit(misfit)))
            }
            Turn::Gives(message) => {
                let came = mem::replace(&mut self.rest, CameAs::new(alloc));
                *self = HeldAs::behind(alloc, Some(came));
                Ok(Some(NewsAs::Given(message)))
            }
        }
    }

    // Goes on with the new parts, and tells what a part made of all, of which these are kept.
    fn go_by_all(&mut self, alloc: Global, all: Option<Turn>) -> Option<NewsAs>
        ensures { (l a : Option Came) (c : Came) (q : Piece) (o : Option each.Turn) (again : Bool)
            → ShowsSome l self.old.last → ShowsSome (option_map (λ d. each.more d q) a) self.old.all
            → Shows c self.old.rest → IsTurnOfAll again a q all o
            → Takes (self.new, result) (each.after_all l c o) }
    {
        match all {
            Some(Turn::Gives(message)) => {
                *self = HeldAs::behind(alloc, self.all.take());
                Some(NewsAs::Given(message))
            }
            Some(Turn::Waits) => None,
            Some(Turn::Broken) => {
                self.all = None;
                None
            }
            Some(Turn::Unfit(_misfit)) => {
                self.all = None;
                None
            }
            None => None,
        }
    }

    // Whether this is the last message. The only error is out of memory.
    pub(crate) fn is_last(&self, alloc: Global, message: &Octets) -> Result<bool, AllocError>
        ensures { (h : each.Held) → Holds h self.now → IfOk result (λ b.
            b ≡ each.is_same h.last message.now) }
    {
        match &self.last {
            None => Ok(false),
            Some(came) => spells(alloc, came, message),
        }
    }
}

// Whether parts are joined to this message. The only error is out of memory.
fn spells(alloc: Global, came: &CameAs, message: &Octets) -> Result<bool, AllocError>
    ensures { (c : Came) → Shows c came.now → IfOk result (λ b.
        b ≡ each.spells (message_of c.parts) message.now) }
{
    match came.message(alloc)? {
        None => Ok(false),
        Some(whole) => Ok(whole == *message),
    }
}

// Whether it is a part of the last message.
pub(crate) fn is_old(last: &Option<CameAs>, part: &PartAs<'_>) -> bool
    requires number { 1 ≤ part.now.number }
    requires short { length part.now.octets.now ≤ longest_packet }
    ensures { (l : Option Came) → ShowsSome l last.now
        → result ≡ each.is_old l (piece part.now) }
{
    match last {
        None => false,
        Some(came) => came.has_part(part),
    }
}

// Adds a part to all parts, if they are kept. The only error is out of memory.
fn turn_of_all(
    alloc: Global,
    reading: &Reading,
    any: bool,
    place: u64,
    all: &mut Option<CameAs>,
    part: &PartAs<'_>,
) -> Result<Option<Turn>, AllocError>
    requires number { 1 ≤ part.now.number }
    requires short { length part.now.octets.now ≤ longest_packet }
    ensures came { (l : Option Came) → ShowsSome l all.old → OnOk result
        (ShowsSome (option_map (λ c. each.more c (piece part.now)) l) all.new) }
    ensures turn { (l : Option Came) → ShowsSome l all.old → IfOk result (λ o. (again : Bool) →
        IsTurnOfAll again l (piece part.now) o
        (each.all_turn reading.now any again l (piece part.now))) }
{
    match all {
        None => Ok(None),
        Some(came) => Ok(Some(turn_with(alloc, reading, any, place, came, part)?)),
    }
}

// This part alone came behind a message. The only error is out of memory.
pub(crate) fn begin(
    alloc: Global,
    last: Option<CameAs>,
    place: u64,
    part: &PartAs<'_>,
) -> Result<HeldAs, AllocError>
    requires number { 1 ≤ part.now.number }
    requires short { length part.now.octets.now ≤ longest_packet }
    ensures { (l : Option Came) → ShowsSome l last → IfOk result
        (Holds (each.held_begun l (each.alone (piece part.now)))) }
{
    let all = match &last {
        None => None,
        Some(_) => Some(alone(alloc, place, part)?),
    };
    let rest = alone(alloc, place, part)?;
    Ok(HeldAs { last, all, rest })
}

// With the part that made a whole that isn't given out, or with nothing. The only error is out of
// memory.
fn begin_after(
    alloc: Global,
    again: bool,
    last: Option<CameAs>,
    place: u64,
    part: &PartAs<'_>,
) -> Result<HeldAs, AllocError>
    requires number { 1 ≤ part.now.number }
    requires short { length part.now.octets.now ≤ longest_packet }
    ensures { (l : Option Came) → ShowsSome l last → IfOk result
        (Holds (each.held_begun l (each.seed again (piece part.now)))) }
{
    if again {
        return begin(alloc, last, place, part);
    }
    Ok(HeldAs::behind(alloc, last))
}
