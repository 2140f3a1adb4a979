//! What is kept of one name, and by the order in which its parts come.

ghost use Rattle.std.specs.Prelude.{◌≡◌, ◌≤◌, ◌==◌, Bool, Option, Some, length, IfOk, false};
ghost use Rattle.std.specs.Option.{option_map};
ghost use Rattle.lpt_packet.specs.Sizes.{longest_packet};
ghost use Rattle.lpt_layout.specs.Parts.{piece};
ghost use Rattle.lpt_carried.specs.declared.reading.Reading.{Reading};
ghost use Rattle.lpt_layout_join.specs.Came.{Came};
ghost use Rattle.lpt_layout_join.specs.CameInside.{Shows};
ghost use Rattle.lpt_layout_each.specs.Eaches as each;
ghost use Rattle.lpt_layout_each.specs.Helds.{Follows, Holds, IsRun, ShowsSome, Steps};
ghost use Rattle.lpt_layout_each.specs.Told.{news_of};

use crate::NewsAs;
use crate::held::HeldAs;
use crate::run::{RunAs, RunTurnAs};
use lpt_carried::Reading;
use lpt_layout::{Octets, PartAs};
use lpt_layout_join::{CameAs, unfit};
use std::alloc::{AllocError, Global};
use std::mem;

/// What is kept of one name.
#[derive(Drop)]
pub(crate) struct CourseAs {
    // The last message, and what came behind it in any order.
    pub(crate) held: HeldAs,
    // What came in the order of its numbers.
    pub(crate) run: RunAs,
    // Whether nothing else came behind the last message: its parts are the rest of what is held, and
    // are kept nowhere else.
    pub(crate) alone: bool,
    // Whether some of what came behind the last message came before that.
    pub(crate) stale: bool,
    // Whether a message was given out since that began.
    pub(crate) gave: bool,
}

impl CourseAs {
    // Nothing came behind this message.
    pub(crate) fn behind(alloc: Global, last: Option<CameAs>) -> CourseAs
        ensures { (l : Option Came) → ShowsSome l last → Follows (each.fresh l) result }
    {
        CourseAs {
            held: HeldAs::behind(alloc, last),
            run: RunAs::none(alloc),
            alone: true,
            stale: false,
            gave: false,
        }
    }

    // What is left.
    pub(crate) fn into_new(self) -> CameAs
        ensures { result ≡ self.held.rest }
    {
        self.held.into_new()
    }

    // Takes a part of the name, at this place, up to which so many counts are missing, and gives
    // what is told of it. The only error is out of memory.
    pub(crate) fn take(
        &mut self,
        alloc: Global,
        reading: &Reading,
        any: bool,
        missing: u64,
        place: u64,
        part: &PartAs<'_>,
    ) -> Result<Option<NewsAs>, AllocError>
        requires number { 1 ≤ part.now.number }
        requires short { length part.now.octets.now ≤ longest_packet }
        ensures { (c : each.Course) → Follows c self.old → IfOk result (λ news.
            Steps (self.new, news) (each.step reading.now any missing c (piece part.now))) }
    {
        if self.goes_on_alone(part) {
            return self.add_alone(alloc, reading, any, missing, place, part);
        }
        self.spread(alloc)?;
        self.take_apart(alloc, reading, any, missing, place, part)
    }

    // Takes a part of a name of which others came too. The only error is out of memory.
    fn take_apart(
        &mut self,
        alloc: Global,
        reading: &Reading,
        any: bool,
        missing: u64,
        place: u64,
        part: &PartAs<'_>,
    ) -> Result<Option<NewsAs>, AllocError>
        requires number { 1 ≤ part.now.number }
        requires short { length part.now.octets.now ≤ longest_packet }
        requires apart { self.old.alone ≡ false }
        ensures { (c : each.Course) → Follows c self.old → IfOk result (λ news.
            Steps (self.new, news) (each.step reading.now any missing c (piece part.now))) }
    {
        match self.run.take(alloc, missing, part)? {
            RunTurnAs::Goes => self.go_on(alloc, reading, any, true, place, part),
            RunTurnAs::Ends(message, sure) => {
                let run = mem::replace(&mut self.run, RunAs::none(alloc));
                match unfit(reading, any, sure, message.as_slice()) {
                    None => self.end_by(alloc, reading, any, (run.came, message), place, part),
                    Some(_) => self.go_on(alloc, reading, any, false, place, part),
                }
            }
        }
    }

    // Takes a part with which no message is given out whose parts came in their order. The only
    // error is out of memory.
    fn go_on(
        &mut self,
        alloc: Global,
        reading: &Reading,
        any: bool,
        again: bool,
        place: u64,
        part: &PartAs<'_>,
    ) -> Result<Option<NewsAs>, AllocError>
        requires number { 1 ≤ part.now.number }
        requires short { length part.now.octets.now ≤ longest_packet }
        requires apart { self.old.alone ≡ false }
        ensures { (c : each.Course) → Follows c self.old → IfOk result (λ news.
            Steps (self.new, news) (each.go_on reading.now any again c (piece part.now))) }
    {
        let stale = staleness(&self.held, self.stale, part.number);
        let gave = since(self.gave, part.number);
        let news = self.held.take(alloc, reading, any, again, place, part)?;
        self.note(stale, gave, &news);
        Ok(news)
    }

    // Notes what was told: of that no new part is left that came before the run.
    fn note(&mut self, stale: bool, gave: bool, news: &Option<NewsAs>)
        ensures { (h : each.Held) (r : each.Run) → Holds h self.old.held → IsRun r self.old.run
            → self.old.alone ≡ false
            → Follows (each.course_by r stale gave h (option_map news_of news.now)) self.new }
    {
        match news {
            None => {
                self.stale = stale;
                self.gave = gave;
            }
            Some(told) => {
                self.stale = false;
                self.gave = gave || is_given(told);
            }
        }
    }

    // Takes a part with which parts are joined to this message that came in their order, if it
    // may be given out: it is, if it wasn't yet. The only error is out of memory.
    fn end_by(
        &mut self,
        alloc: Global,
        reading: &Reading,
        any: bool,
        whole: (CameAs, Octets),
        place: u64,
        part: &PartAs<'_>,
    ) -> Result<Option<NewsAs>, AllocError>
        requires number { 1 ≤ part.now.number }
        requires short { length part.now.octets.now ≤ longest_packet }
        requires apart { self.old.alone ≡ false }
        ensures { (c : each.Course) (d : Came) → Follows c self.old → Shows d whole.0
            → IfOk result (λ news. Steps (self.new, news)
            (each.end_by reading.now any c (piece part.now) d whole.1
            (each.repeats c part.now.number whole.1))) }
    {
        let (came, message) = whole;
        if self.repeats(alloc, part.number, &message)? {
            return self.go_on(alloc, reading, any, false, place, part);
        }
        let held = mem::replace(&mut self.held, HeldAs::behind(alloc, None));
        let news = overtake(held, self.stale, message, &came);
        *self = CourseAs::behind(alloc, Some(came));
        Ok(Some(news))
    }

    // Whether this is the last message, and was given out since its parts began, of which one of
    // this number came. The only error is out of memory.
    fn repeats(&self, alloc: Global, number: u32, message: &Octets) -> Result<bool, AllocError>
        ensures { (c : each.Course) → Follows c self.now → IfOk result (λ b.
            b ≡ each.repeats c number message.now) }
    {
        if !since(self.gave, number) {
            return Ok(false);
        }
        self.held.is_last(alloc, message)
    }
}

// Whether some of the new parts came before the run does, with a part of this number.
fn staleness(held: &HeldAs, stale: bool, number: u32) -> bool
    ensures { (c : each.Course) → Holds c.held held.now → stale ≡ c.stale
        → result ≡ each.staleness c number }
{
    if number == 1 {
        return !held.is_empty();
    }
    stale
}

// Whether a message was given out since the run began, with a part of this number.
fn since(gave: bool, number: u32) -> bool
    ensures { (c : each.Course) → gave ≡ c.gave → result ≡ each.gave_before c number }
{
    if number != 1 {
        return gave;
    }
    false
}

// Whether this tells of a message.
fn is_given(news: &NewsAs) -> bool
    ensures { result ≡ each.is_given (Some (news_of news.now)) }
{
    match news {
        NewsAs::Given(_) => true,
        NewsAs::Dropped(_) => false,
        NewsAs::Unfit(_) => false,
        NewsAs::Overtaken(_, _) => true,
    }
}

// What is told of it, whose parts are these.
fn overtake(held: HeldAs, stale: bool, message: Octets, whole: &CameAs) -> NewsAs
    ensures { (c : each.Course) (d : Came) → Holds c.held held → stale ≡ c.stale
        → Shows d whole.now
        → news_of result ≡ each.told_in_order (each.are_own c d) c.held.new message }
{
    if !stale || held.rest.are_of(whole) {
        return NewsAs::Given(message);
    }
    NewsAs::Overtaken(held.into_new(), message)
}
