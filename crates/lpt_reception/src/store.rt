//! What a reception keeps of its parts: their octets in one buffer, and a mark for each.

ghost use Rattle.std.specs.Prelude.{◌≡◌, ℕ, ◌+◌, ◌<◌, ◌≤◌, true, length, OnOk, OnErr, IfSome, IsSome};
ghost use Rattle.std.specs.FinMap as map;
ghost use Rattle.lpt_part.specs.Parts.{same_kind};
ghost use Rattle.lpt_part.specs.Splitting.{IsPartSize, kind_at};
ghost use Rattle.lpt_reception.specs.Steps.{part_kept, IsNew};
ghost use Rattle.lpt_reception.specs.Marks.{is_marked};
ghost use Rattle.lpt_reception.specs.Missing.{IsInner, IsLastNumber, IsNextMissing};
ghost use Rattle.lpt_reception.specs.Received.{no_parts, with_part, same_kept, is_gap, is_last, is_whole};
ghost use Rattle.lpt_reception.specs.Stored.{top, last_number, kept_at, parts_stored, overruns, IsSound, IsStanding};

use crate::buffer::Buffer;
use crate::marks::Marks;
use lpt_part::{Kind, Mode, Part, Reason, count, slice};
use std::alloc::{AllocError, Global};

/// The parts that were kept.
#[derive(Drop)]
pub(crate) struct Store {
    // The octets of each part at its place, and zeros for parts that are missing. They end with
    // the part of the highest number.
    pub(crate) octets: Buffer,
    // The numbers of the parts.
    marks: Marks,
    // How many parts there are.
    so_many: u32,
    // Whether the part of the highest number is the last one.
    ended: bool,
}

/// What a part is to those that were kept.
pub(crate) enum Standing {
    /// It breaks the reception off, for this reason.
    Conflict(Reason),
    /// It is one of them.
    Again,
    /// It is new, and may be added.
    New,
}

impl Store {
    /// Nothing is kept.
    pub(crate) fn new(alloc: Global) -> Store
        ensures empty { (p : ℕ) → IsPartSize p → parts_stored p result ≡ no_parts }
        ensures sound { (p : ℕ) → IsPartSize p → IsSound p result }
    {
        Store {
            octets: Buffer::new(alloc),
            marks: Marks::new(alloc),
            so_many: 0,
            ended: false,
        }
    }

    /// What a part is to those that were kept, in this mode.
    pub(crate) fn standing_of(&self, mode: Mode, part: &Part<'_>) -> Standing
        requires { IsSound part.now.p self.now }
        ensures { IsStanding mode (parts_stored part.now.p self.now) part.now.number
            (part_kept part.now) result }
    {
        if self.marks.has(part.number) {
            if self.holds(part) {
                Standing::Again
            } else {
                Standing::Conflict(Reason::Conflict)
            }
        } else if self.is_overrun_by(part) {
            Standing::Conflict(Reason::Conflict)
        } else if self.is_gap(mode, part) {
            Standing::Conflict(Reason::Discontinuity)
        } else {
            Standing::New
        }
    }

    // Whether another part than this is the next one in this mode.
    #[tactic(auto, using(crate::proofs::GreatestLemmas::greatest_is))]
    fn is_gap(&self, mode: Mode, part: &Part<'_>) -> bool
        requires { IsSound part.now.p self.now }
        ensures { result ≡ is_gap mode (parts_stored part.now.p self.now) part.now.number }
    {
        match mode {
            Mode::Any => false,
            Mode::Strict => part.number as u32 != self.top(part.p) + 1,
        }
    }

    // The highest number of a part, 0 if there is none.
    fn top(&self, p: u32) -> u32
        requires { IsSound p self.now }
        ensures { result ≡ top p self.now.octets }
    {
        count(self.octets.as_slice().len() as u32, p)
    }

    // The kind of a part that was kept.
    fn kind_of(&self, number: u16, p: u32) -> Kind
        requires sound { IsSound p self.now }
        requires numbered { 1 ≤ number }
        ensures { result ≡ kind_at number (last_number p self.now) }
    {
        if number == 1 {
            Kind::First
        } else if self.ended && number as u32 == self.top(p) {
            Kind::Last
        } else {
            Kind::Middle
        }
    }

    // Whether the part of this number that was kept is the same.
    fn holds(&self, part: &Part<'_>) -> bool
        requires sound { IsSound part.now.p self.now }
        requires marked { is_marked self.now.marks.words.items part.now.number ≡ true }
        ensures { result ≡ same_kept (kept_at part.now.p self.now part.now.number)
            (part_kept part.now) }
    {
        let Some(octets) = slice(self.octets.as_slice(), part.p, part.number as u32) else {
            unreachable!()
        };
        same_kind(self.kind_of(part.number, part.p), part.kind) && octets == part.octets
    }

    // Whether the last part's number is below the new part's, or the new part is a last one below
    // another.
    fn is_overrun_by(&self, part: &Part<'_>) -> bool
        requires { IsSound part.now.p self.now }
        ensures { result ≡ overruns part.now.p self.now part.now.number (part_kept part.now) }
    {
        let number = part.number as u32;
        let top = self.top(part.p);
        (self.ended && top < number) || (is_last(part) && number < top)
    }

    /// Adds a new part. An allocation failure leaves the parts as they were.
    pub(crate) fn add(&mut self, part: &Part<'_>) -> Result<(), AllocError>
        requires sound { IsSound part.now.p self.old }
        requires new { IsNew (parts_stored part.now.p self.old) part.now.number (part_kept part.now) }
        ensures sound { IsSound part.now.p self.new }
        ensures ok { OnOk result (parts_stored part.now.p self.new
            ≡ with_part (parts_stored part.now.p self.old) part.now.number (part_kept part.now)) }
        ensures err { OnErr result
            (parts_stored part.now.p self.new ≡ parts_stored part.now.p self.old) }
    {
        let start = (part.number - 1) as usize * part.p as usize;
        self.marks.reserve(part.number)?;
        self.octets.write(start, part.octets)?;
        self.marks.set(part.number);
        self.so_many += 1;
        self.ended |= is_last(part);
        Ok(())
    }

    /// Whether all parts are there.
    pub(crate) fn is_whole(&self, p: u32) -> bool
        requires { IsSound p self.now }
        ensures { result ≡ is_whole (parts_stored p self.now) }
    {
        self.ended && self.so_many == self.top(p)
    }

    /// How many parts there are.
    pub(crate) fn len(&self) -> u32
        ensures { (p : ℕ) → IsSound p self.now → result ≡ map.len (parts_stored p self.now) }
    {
        self.so_many
    }

    /// The number of the last part, if that is there.
    pub(crate) fn last_number(&self, p: u32) -> Option<u16>
        requires { IsSound p self.now }
        ensures is { IsLastNumber (parts_stored p self.now) result }
        ensures above { IfSome result (λ n. 2 ≤ n) }
    {
        if self.ended {
            Some(self.top(p) as u16)
        } else {
            None
        }
    }

    // The numbers below this one are those of which a part may be missing.
    fn inner_end(&self, p: u32) -> u32
        requires { IsSound p self.now }
        ensures inner { (n : ℕ) → n < result → IsInner (parts_stored p self.now) n }
        ensures below { (n : ℕ) → IsInner (parts_stored p self.now) n → n < result }
    {
        match self.last_number(p) {
            None => 65_536,
            Some(last) => u32::from(last),
        }
    }

    /// The least number from `from` on whose part is missing.
    pub(crate) fn next_missing(&self, from: u16, p: u32) -> Option<u16>
        requires { IsSound p self.now }
        ensures { IsNextMissing (parts_stored p self.now) from result }
    {
        for number in u32::from(from.max(1))..self.inner_end(p) {
            let number = number as u16;
            if !self.marks.has(number) {
                return Some(number);
            }
        }
        None
    }

    /// The octets.
    pub(crate) fn into_octets(self) -> Vec<u8>
        ensures { result.items ≡ self.octets }
    {
        let Store {
            octets,
            marks: _,
            so_many: _,
            ended: _,
        } = self;
        octets.into_vec()
    }

    /// Takes a part out of a whole message, and leaves what was there before it came.
    pub(crate) fn take_out(&mut self, number: u16, p: u32)
        requires sound { IsSound p self.old }
        requires whole { is_whole (parts_stored p self.old) ≡ true }
        requires there { IsSome (map.get (parts_stored p self.old) number) }
        ensures sound { IsSound p self.new }
        ensures without { parts_stored p self.new ≡ map.remove (parts_stored p self.old) number }
    {
        let start = (number - 1) as usize * p as usize;
        let top = self.top(p);
        self.marks.clear(number);
        self.so_many -= 1;
        if number as u32 == top {
            self.octets.truncate(start);
            self.ended = false;
        } else {
            self.octets.write_zeros(start, p as usize);
        }
    }
}

// Whether a part is the last one.
fn is_last(part: &Part<'_>) -> bool
    ensures { result ≡ is_last (part_kept part.now) }
{
    same_kind(part.kind, Kind::Last)
}

fn same_kind(a: Kind, b: Kind) -> bool
    ensures { result ≡ same_kind a b }
{
    a == b
}
