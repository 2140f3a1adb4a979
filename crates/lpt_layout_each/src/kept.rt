//! What is kept of one name while packets of others come.

ghost use Rattle.std.specs.Prelude.{◌≡◌, ◌≤◌, None, length, IfOk, true};
ghost use Rattle.lpt_packet.specs.Sizes.{longest_packet};
ghost use Rattle.lpt_layout.specs.Parts.{piece};
ghost use Rattle.lpt_layout_each.specs.Eaches as each;
ghost use Rattle.lpt_layout_each.specs.Helds.{Follows, IsKept, Keeps, StepsKept};
ghost use Rattle.lpt_layout_each.specs.Kepts.{IsOthers, IsUnlessBlank, out_of_boxes, came_or, out_of_box};
ghost use Rattle.lpt_layout_each.specs.Streams.{waiting};

use crate::course::CourseAs;
use crate::held::HeldAs;
use crate::run::RunAs;
use crate::{NewsAs, WaitingAs};
use lpt_carried::Reading;
use lpt_layout::PartAs;
use lpt_layout_join::{CameAs, Order};
use std::alloc::{AllocError, Global};
use std::boxed::Box;
use std::mem;

/// What is kept of one name, in a block of its own: a map of such takes little for a name, whatever
/// of it stands empty.
#[derive(Drop)]
pub(crate) struct KeptAs {
    pub(crate) inside: Box<Inside>,
}

/// The same as a course, but for what is empty in most.
#[derive(Drop)]
pub(crate) struct Inside {
    pub(crate) rest: CameAs,
    // The order of the run.
    pub(crate) missing: u64,
    pub(crate) count: u32,
    pub(crate) room: u32,
    pub(crate) few: bool,
    pub(crate) alone: bool,
    pub(crate) stale: bool,
    pub(crate) gave: bool,
    pub(crate) others: Option<Box<Others>>,
}

/// The last message, all parts behind it, and those that came in their order.
#[derive(Drop)]
pub(crate) struct Others {
    pub(crate) last: Option<Box<CameAs>>,
    pub(crate) all: Option<Box<CameAs>>,
    pub(crate) run: Option<Box<CameAs>>,
}

/// The same out of their blocks.
#[derive(Drop)]
pub(crate) struct Apart {
    pub(crate) last: Option<CameAs>,
    pub(crate) all: Option<CameAs>,
    pub(crate) run: Option<CameAs>,
}

impl KeptAs {
    // A course. The only error is out of memory.
    pub(crate) fn of(alloc: Global, course: CourseAs) -> Result<KeptAs, AllocError>
        ensures { (c : each.Course) → Follows c course → IfOk result (IsKept c) }
    {
        let inside = Box::new(alloc, Inside::of(alloc, course)?)?;
        Ok(KeptAs { inside })
    }

    // Takes a part of the name, at this place, up to which so many counts are missing, and gives
    // what is told of it. The only error is out of memory.
    pub(crate) fn take(
        &mut self,
        alloc: Global,
        reading: &Reading,
        any: bool,
        missing: u64,
        place: u64,
        part: &PartAs<'_>,
    ) -> Result<Option<NewsAs>, AllocError>
        requires number { 1 ≤ part.now.number }
        requires short { length part.now.octets.now ≤ longest_packet }
        ensures { (c : each.Course) → IsKept c self.old → IfOk result (λ news.
            StepsKept (self.new, news) (each.step reading.now any missing c (piece part.now))) }
    {
        let none = Inside::none(alloc);
        let inside = mem::replace(&mut *self.inside, none);
        let mut course = inside.open(alloc);
        let news = course.take(alloc, reading, any, missing, place, part)?;
        *self.inside = Inside::of(alloc, course)?;
        Ok(news)
    }

    // Whether nothing is left of what came.
    pub(crate) fn is_empty(&self) -> bool
        ensures { (c : each.Course) → IsKept c self.now → result ≡ each.is_empty c.held.new }
    {
        self.inside.rest.highest() == 0
    }

    // How much is left.
    pub(crate) fn waiting(&self) -> WaitingAs
        ensures { (c : each.Course) → IsKept c self.now → result ≡ waiting c.held.new }
    {
        WaitingAs {
            count: self.inside.rest.count(),
            highest: self.inside.rest.highest(),
        }
    }

    // What is left.
    pub(crate) fn into_new(self) -> CameAs
        ensures { result ≡ self.inside.value.rest }
    {
        let KeptAs { inside } = self;
        let Inside { rest, .. } = Box::into_inner(inside);
        rest
    }
}

impl Inside {
    // Nothing.
    fn none(alloc: Global) -> Inside {
        Inside {
            rest: CameAs::new(alloc),
            missing: 0,
            count: 0,
            room: 0,
            few: true,
            alone: true,
            stale: false,
            gave: false,
            others: None,
        }
    }

    // What is kept of a course. The only error is out of memory.
    fn of(alloc: Global, course: CourseAs) -> Result<Inside, AllocError>
        ensures { (c : each.Course) → Follows c course → IfOk result (Keeps c) }
    {
        let CourseAs {
            held,
            run,
            alone,
            stale,
            gave,
        } = course;
        let HeldAs { last, all, rest } = held;
        let RunAs { order, came } = run;
        let others = others_of(alloc, last, all, came)?;
        Ok(Inside {
            rest,
            missing: order.missing,
            count: order.count,
            room: order.room,
            few: order.few,
            alone,
            stale,
            gave,
            others,
        })
    }

    // The course.
    fn open(self, alloc: Global) -> CourseAs
        ensures { (c : each.Course) → Keeps c self → Follows c result }
    {
        let Inside {
            rest,
            missing,
            count,
            room,
            few,
            alone,
            stale,
            gave,
            others,
        } = self;
        let Apart { last, all, run } = out_of_boxes(others);
        let order = Order {
            count,
            missing,
            room,
            few,
        };
        let blank = CameAs::new(alloc);
        let came = came_or(run, blank);
        CourseAs {
            held: HeldAs { last, all, rest },
            run: RunAs { order, came },
            alone,
            stale,
            gave,
        }
    }
}

// These, if there are any but a run of no parts. The only error is out of memory.
fn others_of(
    alloc: Global,
    last: Option<CameAs>,
    all: Option<CameAs>,
    run: CameAs,
) -> Result<Option<Box<Others>>, AllocError>
    ensures { IfOk result (IsOthers last all run) }
{
    let run = unless_blank(run);
    if none_of(&last, &all, &run) {
        return Ok(None);
    }
    let last_box = in_box(alloc, last)?;
    let all_box = in_box(alloc, all)?;
    let run_box = in_box(alloc, run)?;
    let others = Others {
        last: last_box,
        all: all_box,
        run: run_box,
    };
    let kept = Box::new(alloc, others)?;
    Ok(Some(kept))
}

// Whether there are none of these.
fn none_of(last: &Option<CameAs>, all: &Option<CameAs>, run: &Option<CameAs>) -> bool
    ensures { result ≡ true → (last.now ≡ None) × (all.now ≡ None) × (run.now ≡ None) }
{
    last.is_none() && all.is_none() && run.is_none()
}

// These parts, unless there are none.
fn unless_blank(came: CameAs) -> Option<CameAs>
    ensures { IsUnlessBlank came result }
{
    if came.is_blank() {
        return None;
    }
    Some(came)
}

// The same out of their blocks.
fn out_of_boxes(others: Option<Box<Others>>) -> Apart
    ensures { result ≡ out_of_boxes others }
{
    match others {
        None => Apart {
            last: None,
            all: None,
            run: None,
        },
        Some(others) => {
            let Others { last, all, run } = Box::into_inner(others);
            Apart {
                last: out_of_box(last),
                all: out_of_box(all),
                run: out_of_box(run),
            }
        }
    }
}

// These parts, or others.
fn came_or(came: Option<CameAs>, other: CameAs) -> CameAs
    ensures { result ≡ came_or came other }
{
    match came {
        Some(came) => came,
        None => other,
    }
}

// In a block of its own. The only error is out of memory.
fn in_box(alloc: Global, came: Option<CameAs>) -> Result<Option<Box<CameAs>>, AllocError>
    ensures { IfOk result (λ b. out_of_box b ≡ came) }
{
    match came {
        None => Ok(None),
        Some(came) => Ok(Some(Box::new(alloc, came)?)),
    }
}

// Out of its block.
fn out_of_box(came: Option<Box<CameAs>>) -> Option<CameAs>
    ensures { result ≡ out_of_box came }
{
    match came {
        None => None,
        Some(came) => Some(Box::into_inner(came)),
    }
}
