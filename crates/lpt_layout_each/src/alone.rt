//! Parts of one name that came in their order behind a message, and nothing else: they are kept once.

ghost use Rattle.std.specs.Prelude.{◌≡◌, ◌≤◌, true, false, Option, length, IfOk, OnOk};
ghost use Rattle.lpt_packet.specs.Sizes.{longest_packet};
ghost use Rattle.lpt_layout.specs.Parts.{piece};
ghost use Rattle.std.specs.Option.{option_map};
ghost use Rattle.lpt_layout_join.specs.Came.{Came};
ghost use Rattle.lpt_layout_join.specs.CameInside.{Shows};
ghost use Rattle.lpt_layout_each.specs.Eaches as each;
ghost use Rattle.lpt_layout_each.specs.Helds.{Follows, Holds, ShowsSome, Steps, broken_course, goes_on, goes_on_alone};

use crate::NewsAs;
use crate::course::CourseAs;
use crate::held::{HeldAs, begin, is_old};
use crate::run::RunAs;
use lpt_carried::Reading;
use lpt_layout::PartAs;
use lpt_layout_join::{CameAs, Order, unfit};
use std::alloc::{AllocError, Global};
use std::mem;

impl CourseAs {
    // Whether a part is the next of those that came alone, or one of these again, and none of the
    // last message.
    pub(crate) fn goes_on_alone(&self, part: &PartAs<'_>) -> bool
        requires number { 1 ≤ part.now.number }
        requires short { length part.now.octets.now ≤ longest_packet }
        ensures { (c : each.Course) → Follows c self.now
            → result ≡ goes_on_alone self.now c.held.last (piece part.now) }
    {
        self.alone && goes_on(self.run.order, part.number) && !is_old(&self.held.last, part)
    }

    // Keeps what came alone as if other parts came too. The only error is out of memory.
    pub(crate) fn spread(&mut self, alloc: Global) -> Result<(), AllocError>
        ensures follows { (c : each.Course) → Follows c self.old → OnOk result (Follows c self.new) }
        ensures apart { OnOk result (self.new.alone ≡ false) }
    {
        if self.alone {
            self.held.all = copy_behind(alloc, &self.held.last, &self.held.rest)?;
            self.run.came = self.held.rest.copy(alloc)?;
            self.alone = false;
        }
        Ok(())
    }

    // Takes such a part, up to which so many counts are missing. The only error is out of memory.
    pub(crate) fn add_alone(
        &mut self,
        alloc: Global,
        reading: &Reading,
        any: bool,
        missing: u64,
        place: u64,
        part: &PartAs<'_>,
    ) -> Result<Option<NewsAs>, AllocError>
        requires number { 1 ≤ part.now.number }
        requires short { length part.now.octets.now ≤ longest_packet }
        ensures { (c : each.Course) → Follows c self.old
            → goes_on_alone self.old c.held.last (piece part.now) ≡ true → IfOk result (λ news.
            Steps (self.new, news) (each.step reading.now any missing c (piece part.now))) }
    {
        self.run.order = self.run.order.with(part.number, missing);
        self.held.rest.take_from(place, part)?;
        if self.held.rest.against().is_some() {
            let held = begin(alloc, self.held.last.take(), place, part)?;
            let before = mem::replace(self, CourseAs::with_held(alloc, held));
            return Ok(Some(NewsAs::Dropped(before.into_new())));
        }
        let Some(message) = self.held.rest.message(alloc)? else {
            return Ok(None);
        };
        let sure = self.run.order.is_whole(self.held.rest.last());
        match unfit(reading, any, sure, message.as_slice()) {
            None => {
                let came = mem::replace(&mut self.held.rest, CameAs::new(alloc));
                *self = CourseAs::behind(alloc, Some(came));
                Ok(Some(NewsAs::Given(message)))
            }
            Some(misfit) => {
                *self = CourseAs::behind(alloc, self.held.last.take());
                Ok(Some(NewsAs::Unfit(misfit)))
            }
        }
    }

    // Parts were given up, and this is held.
    fn with_held(alloc: Global, held: HeldAs) -> CourseAs
        ensures { (h : each.Held) → Holds h held → Follows (broken_course h) result }
    {
        CourseAs {
            held,
            run: RunAs::none(alloc),
            alone: false,
            stale: false,
            gave: false,
        }
    }
}

// Whether a part of this number is the next of those in this order, or one of these again.
fn goes_on(order: Order, number: u32) -> bool
    ensures { result ≡ goes_on order number }
{
    if number == 1 {
        return order.count == 0;
    }
    u64::from(number) <= u64::from(order.count) + 1
}

// What came, a second time, if there is a message before it. The only error is out of memory.
fn copy_behind(
    alloc: Global,
    last: &Option<CameAs>,
    came: &CameAs,
) -> Result<Option<CameAs>, AllocError>
    ensures { (l : Option Came) (c : Came) → ShowsSome l last.now → Shows c came.now
        → IfOk result (ShowsSome (option_map (λ _. c) l)) }
{
    match last {
        None => Ok(None),
        Some(_) => Ok(Some(came.copy(alloc)?)),
    }
}
