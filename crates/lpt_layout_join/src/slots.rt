//! The octets of parts, and where those of each number stand among them.

ghost use Rattle.lpt_layout_join.specs.Spans.{Rise};

use crate::spans::{Span, end_of, find, octets_at, put_span, span_at, span_behind};
use lpt_layout::{Octets, PartAs};
use std::alloc::{AllocError, Global};

/// The octets of parts, each at its number less one. It takes 12 octets for each part beside its
/// own, however high its number is, and twice that at most.
#[derive(Drop)]
pub(crate) struct Slots {
    // Those of all parts, one behind the other, as they came.
    pub(crate) octets: Vec<u8>,
    // Where those of each part stand, by their places.
    pub(crate) spans: Vec<Span>,
    ghost rises: { Rise spans.items },
}

impl Slots {
    ghost use Rattle.std.specs.Prelude.{◌≡◌, ◌≢◌, ◌≤◌, ◌<◌, ◌-◌, ℕ, true, Some, None, length, max, IfOk, IfSome, OnOk, is_some};
    ghost use Rattle.std.specs.Option.{option_or};
    ghost use Rattle.lpt_layout_join.specs.Came.{is_other, octets_joined, none_other};
    ghost use Rattle.lpt_layout_join.specs.Slots.{IsSound, at, end_in};
    ghost use Rattle.lpt_layout_join.specs.Spans.{IsPlaceOf};

    // None.
    pub(crate) fn new(alloc: Global) -> Slots
        ensures none { (i : ℕ) → at result i ≡ None }
        ensures end { end_in result ≡ 0 }
        ensures sound { IsSound result }
    {
        Slots {
            octets: Vec::new(alloc),
            spans: Vec::new(alloc),
        }
    }

    // Keeps the octets of a part, unless there are some of its number. The only error is out of
    // memory.
    pub(crate) fn put(&mut self, part: &PartAs<'_>) -> Result<(), AllocError>
        requires { 1 ≤ part.now.number }
        ensures sound { IsSound self.old → OnOk result (IsSound self.new) }
        ensures others { IsSound self.old → OnOk result ((i : ℕ) → i ≢ part.now.number - 1
            → at self.new i ≡ at self.old i) }
        ensures here { IsSound self.old → OnOk result (at self.new (part.now.number - 1)
            ≡ option_or (at self.old (part.now.number - 1)) (Some part.now.octets.now)) }
        ensures end { OnOk result (end_in self.new ≡ max part.now.number (end_in self.old)) }
    {
        match find(self.spans.as_slice(), part.number as usize - 1) {
            Ok(_) => Ok(()),
            Err(index) => {
                self.put_behind(index, part)?;
                Ok(())
            }
        }
    }

    // The same of a part of whose number there are none, behind so many.
    fn put_behind(&mut self, index: usize, part: &PartAs<'_>) -> Result<(), AllocError>
        requires number { 1 ≤ part.now.number }
        requires new { IsPlaceOf (part.now.number - 1) self.old.spans.items index }
        ensures sound { IsSound self.old → OnOk result (IsSound self.new) }
        ensures others { IsSound self.old → OnOk result ((i : ℕ) → i ≢ part.now.number - 1
            → at self.new i ≡ at self.old i) }
        ensures here { IsSound self.old → OnOk result (at self.new (part.now.number - 1)
            ≡ Some part.now.octets.now) }
        ensures end { OnOk result (end_in self.new ≡ max part.now.number (end_in self.old)) }
    {
        let span = span_behind(part.number - 1, self.octets.len(), part.octets.len())?;
        self.octets.extend_from_slice(part.octets)?;
        put_span(&mut self.spans, index, span)?;
        Ok(())
    }

    // The same in memory of its own. The only error is out of memory.
    pub(crate) fn copy(&self, alloc: Global) -> Result<Slots, AllocError>
        ensures octets { IfOk result (λ s. s.octets.items ≡ self.now.octets.items) }
        ensures spans { IfOk result (λ s. s.spans.items ≡ self.now.spans.items) }
    {
        let mut octets = Vec::with_capacity(alloc, self.octets.len())?;
        octets.extend_from_slice(&self.octets)?;
        let mut spans = Vec::with_capacity(alloc, self.spans.len())?;
        spans.extend_from_slice(&self.spans)?;
        Ok(Slots { octets, spans })
    }

    // How many parts there are.
    pub(crate) fn count(&self) -> usize
        ensures { result ≡ length self.now.spans.items }
    {
        self.spans.len()
    }

    // The first place behind all of them.
    pub(crate) fn end(&self) -> usize
        ensures { result ≡ end_in self.now }
    {
        end_of(&self.spans)
    }

    // The octets at a place, if a part came.
    pub(crate) fn part_at(&self, place: usize) -> Option<&[u8]>
        ensures some { IfSome result (λ o. at self.now place ≡ Some o.now) }
        ensures none { result ≡ None → at self.now place ≡ None }
    {
        match span_at(&self.spans, place) {
            Some(span) => octets_at(&self.octets, span),
            None => None,
        }
    }

    // Whether octets are at a place.
    pub(crate) fn has_part(&self, place: usize) -> bool
        ensures { result ≡ is_some (at self.now place) }
    {
        self.part_at(place).is_some()
    }

    // The octets of parts 1 to `total`, if each came. The only error is out of memory.
    pub(crate) fn joined(&self, alloc: Global, total: usize) -> Result<Option<Octets>, AllocError>
        ensures { IfOk result (λ m. m ≡ octets_joined (λ n. at self.now (n - 1)) total) }
    {
        let mut octets = Vec::with_capacity(alloc, self.octets.len())?;
        for place in 0..total {
            let Some(part) = self.part_at(place) else {
                return Ok(None);
            };
            octets.extend_from_slice(part)?;
        }
        Ok(Some(Octets::from_vec(octets)))
    }

    // Whether at no place octets are that aren't at that place of others.
    pub(crate) fn none_other(&self, others: &Slots) -> bool
        ensures { result ≡ none_other (λ n. at self.now (n - 1)) (λ n. at others.now (n - 1))
            (end_in self.now) }
    {
        for place in 0..self.end() {
            if self.is_other(others, place) {
                return false;
            }
        }
        true
    }

    // Whether octets are at a place that aren't at that place of others.
    fn is_other(&self, others: &Slots, place: usize) -> bool
        ensures { result ≡ is_other (at self.now place) (at others.now place) }
    {
        let Some(part) = self.part_at(place) else {
            return false;
        };
        match others.part_at(place) {
            None => true,
            Some(other) => part != other,
        }
    }
}
