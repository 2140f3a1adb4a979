//! What a message does to memories that are elsewhere, and its answer by their octets.

ghost use Rattle.std.specs.Prelude.{◌≡◌, ℕ, List, IfOk, IsOk, length, map, option_map, slice_get};
ghost use Rattle.lpt_memory.specs.Effects.{answer, HasNoReply, AnswerFits};
ghost use Rattle.lpt_memory.specs.Given.{accesses, answer_of, octets_read, read_length, read_of, write_of, octets_written};
ghost use Rattle.lpt_memory.specs.Memories.{Contents, sizes_of};
ghost use Rattle.lpt_memory.specs.Readings.{source_meaning};
ghost use Rattle.lpt_memory.specs.Seen.{areas_in, AreWithin};

use crate::request::{AreaRange, Plan, StoredArea};
use crate::{Effect, Reading, octets};
use std::alloc::{AllocError, Global};

/// Octets of a memory that a message writes or reads.
#[derive(Clone, Copy, Debug)]
pub struct Access {
    /// The identifier of the memory.
    pub memory: u8,
    /// Whether they are written.
    pub is_write: bool,
    /// The address of the first octet, from 0.
    pub address: u32,
    /// How many octets, from 1.
    pub len: u16,
}

impl Reading {
    /// What the message does to a memory, by a number from 0, in the order in which it is done: a
    /// load writes its areas, a dump and a check read theirs. `None` if it does no more.
    pub fn access(&self, number: usize) -> Option<Access>
        ensures { result ≡ slice_get (accesses (source_meaning self.now)) number }
    {
        match self.plan() {
            Plan::Silent => None,
            Plan::Code(_) => None,
            Plan::Load(id, areas) => write_at(*id, areas, number),
            Plan::Dump(id, ranges) => read_at(*id, ranges, number),
            Plan::Check(id, ranges) => read_at(*id, ranges, number),
        }
    }

    /// The octets that a load writes by an access of it. `None` if there is no such access, as
    /// always of another message.
    pub fn octets_written(&self, number: usize) -> Option<&[u8]>
        ensures { option_map (λ x. x.now) result
            ≡ slice_get (octets_written (source_meaning self.now)) number }
    {
        match self.plan() {
            Plan::Silent => None,
            Plan::Code(_) => None,
            Plan::Load(_, areas) => octets_at(self.body(), areas, number),
            Plan::Dump(_, _) => None,
            Plan::Check(_, _) => None,
        }
    }

    /// How many octets the message reads of a memory: those of all areas of a dump or a check.
    pub fn read_len(&self) -> usize
        ensures { result ≡ read_length (source_meaning self.now) }
    {
        octets::read_len(self.plan())
    }

    /// The answer to the message, by the octets that it reads, one area behind the other.
    ///
    /// The only error is out of memory, for the answer to a dump or a check.
    pub fn answer_of(&self, alloc: Global, octets: &[u8]) -> Result<Effect, AllocError>
        requires { length octets.now ≡ read_length (source_meaning self.now) }
        ensures answer { IfOk result (λ e. e ≡ answer_of (source_meaning self.now) octets.now) }
        ensures fits { IfOk result (λ e. AnswerFits e) }

        // It is the answer of any memories of that shape that have these octets there.
        ensures over { (ms : Contents) → self.now.sizes ≡ sizes_of ms
            → octets_read (source_meaning self.now) ms ≡ octets.now
            → IfOk result (λ e. e ≡ answer (source_meaning self.now) ms) }

        // It fails only if there is a reply to be made.
        ensures no_reply { HasNoReply (source_meaning self.now) → IsOk result }
    {
        octets::answer_of(alloc, self.plan(), octets)
    }
}

// An area of a load, as an access.
#[tactic(auto, using(crate::proofs::GivenLemmas::write_past))]
fn write_at(id: u8, areas: &[StoredArea], number: usize) -> Option<Access>
    ensures { (body : List ℕ) → AreWithin (length body) areas.now
        → result ≡ slice_get (map (write_of id) (areas_in body areas.now)) number }
{
    if number >= areas.len() {
        return None;
    }
    let area = areas[number];
    Some(Access {
        memory: id,
        is_write: true,
        address: area.address,
        len: area.len,
    })
}

// An area of a dump or a check, as an access.
fn read_at(id: u8, ranges: &[AreaRange], number: usize) -> Option<Access>
    ensures { result ≡ slice_get (map (read_of id) ranges.now) number }
{
    let range = ranges.get(number).copied()?;
    Some(Access {
        memory: id,
        is_write: false,
        address: range.address,
        len: range.len,
    })
}

// The octets of an area of a load, in the body that it stands in.
#[tactic(auto, using(crate::proofs::GivenLemmas::octets_past))]
fn octets_at<'a>(body: &'a [u8], areas: &[StoredArea], number: usize) -> Option<&'a [u8]>
    requires { AreWithin (length body.now) areas.now }
    ensures { option_map (λ x. x.now) result
        ≡ slice_get (map (λ a. a.octets) (areas_in body.now areas.now)) number }
{
    if number >= areas.len() {
        return None;
    }
    let area = areas[number];
    Some(area.octets(body))
}
