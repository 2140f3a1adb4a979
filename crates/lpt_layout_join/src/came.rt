//! What came of one transaction.

ghost use Rattle.std.specs.Prelude.{◌≤◌};
ghost use Rattle.lpt_packet.specs.Sizes.{longest_packet};

use crate::LastPart;
use crate::against::{other_end, other_octets, other_size};
use crate::last_part::{ends_in, last_told, size_told};
use crate::slots::Slots;
use lpt_layout::{Octets, PartAs};
use std::alloc::{AllocError, Global};

/// What came of one transaction: the parts that agree with those before them, in any order, and the
/// place of the first that doesn't. After that one nothing more is taken.
///
/// It takes at most twice as much memory as the parts' octets and 12 octets for each part, and 80
/// more, however high their numbers are.
#[derive(Drop)]
pub struct CameAs {
    // The octets of each part, at its number less one.
    slots: Slots,
    began_at: u64,
    against_at: u64,
    size: u32,
    last_number: u32,
    last_len: u32,
    // Which of these are told, in their order.
    has_began: bool,
    has_against: bool,
    has_size: bool,
    has_last: bool,
    ghost small: { size ≤ longest_packet },
    ghost small_last: { last_len ≤ longest_packet },
}

impl CameAs {
    ghost use Rattle.std.specs.Prelude.{◌≡◌, ◌∷◌, ◌++◌, [], true, length, OnOk, IfOk, Some, None, is_some};
    ghost use Rattle.std.specs.Option.{option_or};
    ghost use Rattle.lpt_layout.specs.Parts.{piece};
    ghost use Rattle.lpt_layout_join.specs.Came.{Came, nothing_came, are_of, count_in, has_part, highest, is_against, is_small, is_small_last, last_of, message_of, octets_of, size_of, step};
    ghost use Rattle.lpt_layout_join.specs.CameInside.{IsBlank, Shows, against_in, began_in, highest_in, last_in, part_at, size_in};

    /// What came of a transaction of which nothing has come yet.
    pub fn new(alloc: Global) -> CameAs
        ensures shows { Shows nothing_came result }
        ensures blank { IsBlank result }
    {
        CameAs {
            slots: Slots::new(alloc),
            began_at: 0,
            against_at: 0,
            size: 0,
            last_number: 0,
            last_len: 0,
            has_began: false,
            has_against: false,
            has_size: false,
            has_last: false,
        }
    }

    /// Whether no part came. Then a new one holds the same.
    pub fn is_blank(&self) -> bool
        ensures { result ≡ true → IsBlank self.now }
    {
        let is_told = self.has_size || self.has_last || self.has_against;
        self.slots.count() == 0 && !is_told
    }

    /// Takes a part whose packet stands at this place. The only error is out of memory.
    pub fn take(&mut self, place: u64, part: &PartAs<'_>) -> Result<(), AllocError>
        requires number { 1 ≤ part.now.number }
        requires short { length part.now.octets.now ≤ longest_packet }
        ensures came { (c : Came) → Shows c self.old
            → OnOk result (Shows (step c place (piece part.now)) self.new) }
        ensures began { OnOk result (began_in self.new ≡ began_in self.old) }
    {
        if self.has_against {
            return Ok(());
        }
        if self.contradicts(part) {
            self.has_against = true;
            self.against_at = place;
            return Ok(());
        }
        self.keep(part)
    }

    /// Takes a part whose packet stands at this place, from which on they are told. The only error
    /// is out of memory.
    pub fn take_from(&mut self, place: u64, part: &PartAs<'_>) -> Result<(), AllocError>
        requires number { 1 ≤ part.now.number }
        requires short { length part.now.octets.now ≤ longest_packet }
        ensures came { (c : Came) → Shows c self.old
            → OnOk result (Shows (step c 0 (piece part.now)) self.new) }
        ensures began { OnOk result
            (began_in self.new ≡ option_or (began_in self.old) (Some place)) }
    {
        self.take(0, part)?;
        if !self.has_began {
            self.has_began = true;
            self.began_at = place;
        }
        Ok(())
    }

    /// The place of the first of them, if it was told.
    pub fn began(&self) -> Option<u64>
        ensures { result ≡ began_in self.now }
    {
        if self.has_began {
            Some(self.began_at)
        } else {
            None
        }
    }

    /// The same parts in memory of their own. The only error is out of memory.
    pub fn copy(&self, alloc: Global) -> Result<CameAs, AllocError>
        ensures came { (c : Came) → Shows c self.now → IfOk result (Shows c) }
        ensures began { IfOk result (λ s. began_in s ≡ began_in self.now) }
    {
        let slots = self.slots.copy(alloc)?;
        Ok(CameAs {
            slots,
            began_at: self.began_at,
            against_at: self.against_at,
            size: self.size,
            last_number: self.last_number,
            last_len: self.last_len,
            has_began: self.has_began,
            has_against: self.has_against,
            has_size: self.has_size,
            has_last: self.has_last,
        })
    }

    // Whether a part contradicts those that came.
    fn contradicts(&self, part: &PartAs<'_>) -> bool
        requires number { 1 ≤ part.now.number }
        requires short { length part.now.octets.now ≤ longest_packet }
        ensures { result ≡ is_against (part_at self.now part.now.number) (size_in self.now)
            (last_in self.now) (highest_in self.now) (piece part.now) }
    {
        other_octets(&self.slots, part)
            || other_size(self.told_size(), part)
            || other_end(self.told_last(), self.slots.end(), part)
    }

    // Keeps a part that agrees. The only error is out of memory.
    fn keep(&mut self, part: &PartAs<'_>) -> Result<(), AllocError>
        requires number { 1 ≤ part.now.number }
        requires short { length part.now.octets.now ≤ longest_packet }
        ensures came { (c : Came) → Shows c self.old → c.against ≡ None
            → OnOk result (Shows (record c { parts = c.parts ++ piece part.now ∷ [] }) self.new) }
        ensures began { OnOk result (began_in self.new ≡ began_in self.old) }
    {
        self.slots.put(part)?;
        let size = self.told_size().or(size_told(part));
        let last = self.told_last().or(last_told(part));
        self.note(size, last);
        Ok(())
    }

    // Notes the part size and the last part, if they are told.
    fn note(&mut self, size: Option<usize>, last: Option<LastPart>)
        requires small { is_small size ≡ true }
        requires small_last { is_small_last last ≡ true }
        ensures size { size_in self.new ≡ size }
        ensures last { last_in self.new ≡ last }
        ensures slots { self.new.slots ≡ self.old.slots }
        ensures against { against_in self.new ≡ against_in self.old }
        ensures began { began_in self.new ≡ began_in self.old }
    {
        match size {
            Some(size) => {
                self.has_size = true;
                self.size = size as u32;
            }
            None => self.has_size = false,
        }
        match last {
            Some(last) => {
                self.has_last = true;
                self.last_number = last.number;
                self.last_len = last.len as u32;
            }
            None => self.has_last = false,
        }
    }

    // The part size, if it is told.
    fn told_size(&self) -> Option<usize>
        ensures is { result ≡ size_in self.now }
        ensures small { is_small result ≡ true }
    {
        if self.has_size {
            Some(self.size as usize)
        } else {
            None
        }
    }

    /// The message, once each part up to the last one came. The only error is out of memory.
    pub fn message(&self, alloc: Global) -> Result<Option<Octets>, AllocError>
        ensures { (c : Came) → Shows c self.now → IfOk result (λ m. m ≡ message_of c.parts) }
    {
        match self.told_last() {
            Some(last) if self.slots.count() < last.number as usize => Ok(None),
            Some(last) => self.slots.joined(alloc, last.number as usize),
            None => Ok(None),
        }
    }

    /// Whether each of these parts is one of those, with which a message is whole.
    pub fn are_of(&self, whole: &CameAs) -> bool
        ensures { (c d : Came) → Shows c self.now → Shows d whole.now
            → result ≡ are_of c.parts d.parts }
    {
        ends_in(self.told_last(), self.slots.end(), whole.told_last())
            && self.slots.none_other(&whole.slots)
    }

    /// The place of the packet of the first part that contradicts those before it.
    pub fn against(&self) -> Option<u64>
        ensures { (c : Came) → Shows c self.now → result ≡ c.against }
    {
        if self.has_against {
            Some(self.against_at)
        } else {
            None
        }
    }

    /// The part size, once a part came that isn't the last.
    pub fn size(&self) -> Option<usize>
        ensures { (c : Came) → Shows c self.now → result ≡ size_of c.parts }
    {
        self.told_size()
    }

    /// The last part, once it came.
    pub fn last(&self) -> Option<LastPart>
        ensures { (c : Came) → Shows c self.now → result ≡ last_of c.parts }
    {
        self.told_last()
    }

    /// Of how many numbers parts came.
    pub fn count(&self) -> usize
        ensures { (c : Came) → Shows c self.now → result ≡ count_in c.parts }
    {
        self.slots.count()
    }

    /// The greatest number of a part that came, 0 if none did.
    pub fn highest(&self) -> usize
        ensures { (c : Came) → Shows c self.now → result ≡ highest c.parts }
    {
        self.slots.end()
    }

    /// Whether this very part came.
    pub fn has_part(&self, part: &PartAs<'_>) -> bool
        requires number { 1 ≤ part.now.number }
        requires short { length part.now.octets.now ≤ longest_packet }
        ensures { (c : Came) → Shows c self.now → result ≡ has_part c.parts (piece part.now) }
    {
        if self.contradicts(part) {
            return false;
        }
        self.has(part.number)
    }

    /// Whether a part of this number came.
    pub fn has(&self, number: u32) -> bool
        requires { 1 ≤ number }
        ensures { (c : Came) → Shows c self.now → result ≡ is_some (octets_of c.parts number) }
    {
        self.keeps(number)
    }

    /// Whether the octets of a part of this number are kept.
    pub fn keeps(&self, number: u32) -> bool
        requires { 1 ≤ number }
        ensures { result ≡ is_some (part_at self.now number) }
    {
        self.slots.has_part(number as usize - 1)
    }

    /// The last part that is kept.
    pub fn kept_last(&self) -> Option<LastPart>
        ensures { result ≡ last_in self.now }
    {
        self.told_last()
    }

    // The last part, if it is told.
    fn told_last(&self) -> Option<LastPart>
        ensures is { result ≡ last_in self.now }
        ensures small { is_small_last result ≡ true }
    {
        if self.has_last {
            Some(LastPart {
                number: self.last_number,
                len: self.last_len as usize,
            })
        } else {
            None
        }
    }

    /// Up to which number parts are kept.
    pub fn kept_highest(&self) -> usize
        ensures { result ≡ highest_in self.now }
    {
        self.slots.end()
    }
}
