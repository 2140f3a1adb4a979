//! What is kept of each name.

ghost use Rattle.std.specs.Prelude.{◌≡◌, ◌≤◌, ℕ, Bool, List, [], ◌∷◌, ◌++◌, false, length, Some, IfErr, IfOk, Ok, Err, OnOk};
ghost use Rattle.std.specs.BTreeMap.{get, IsOrdered};
ghost use Rattle.lpt_packet.specs.Sizes.{longest_packet};
ghost use Rattle.lpt_carried.specs.declared.name.Name.{Name};
ghost use Rattle.lpt_carried.specs.declared.reading.Reading.{Reading};
ghost use Rattle.lpt_carried.specs.declared.skip.Skip.{Skip};
ghost use Rattle.lpt_layout.specs.Parts.{piece};
ghost use Rattle.lpt_carried.specs.Carried.{name_of, part_carried, part_named, same_name};
ghost use Rattle.lpt_layout_each.specs.Eaches.{Course, step};
ghost use Rattle.lpt_layout_each.specs.Helds.{HoldsEach, IsHeld, StepsAt};
ghost use Rattle.lpt_layout_join.specs.Names.{name_cmp};
ghost use Rattle.lpt_layout_each.specs.Streams.{told_by, waiting_of};
ghost use Rattle.lpt_layout_each.specs.Told.{events_of};

use crate::course::CourseAs;
use crate::kept::KeptAs;
use crate::{NewsAs, WaitingAs};
use lpt_carried::{CarriedPart, Name, Reading};
use lpt_layout_join::Counts;
use lpt_text::StreamFault;
use std::alloc::{AllocError, Global};
use std::collections::BTreeMap;

/// What is kept of each name while the packets of a stream come. Of a name it takes as much memory
/// as four `CameAs`, and some 100 octets more; as two, the last message's and the next one's, while
/// parts come in their order and none of them is a part of the last message; and as one before the
/// first message, unless parts come in their order behind others.
#[derive(Drop)]
pub struct HeldsAs {
    pub(crate) kept: BTreeMap<Name, KeptAs>,
    pub(crate) counts: Counts,
}

impl HeldsAs {
    /// What is kept before anything came.
    pub fn new(alloc: Global) -> HeldsAs
        ensures { (r : Reading) (any : Bool) → HoldsEach r any [] result }
    {
        HeldsAs {
            kept: BTreeMap::new(alloc),
            counts: Counts::new(alloc),
        }
    }

    /// Takes the packet that comes next, at this place, which carries a part, and gives what it
    /// tells of its name. A message is given if it is a packet of the layout and the direction,
    /// or with `any` whatever it is. By a layout without a checksum it is given, but with `any`,
    /// only if its parts came in their order, and between each of them and the next fewer
    /// sequence counts of the APID are missing than the number of it. The only error is out of
    /// memory.
    pub fn take(
        self,
        alloc: Global,
        reading: &Reading,
        any: bool,
        place: u64,
        octets: &[u8],
        part: &CarriedPart<'_>,
    ) -> Result<(HeldsAs, Option<(Name, NewsAs)>), AllocError>
        requires number { 1 ≤ part.now.part.number }
        requires short { length part.now.part.octets.now ≤ longest_packet }
        ensures held { (bs : List (List ℕ)) → HoldsEach reading.now any bs self
            → part_carried reading.now octets.now ≡ Ok (part_named part.now)
            → IfOk result (λ r. HoldsEach reading.now any (bs ++ octets.now ∷ []) r.0) }
        ensures told { (bs : List (List ℕ)) → HoldsEach reading.now any bs self
            → part_carried reading.now octets.now ≡ Ok (part_named part.now)
            → IfOk result (λ r. events_of r.1
            ≡ told_by reading.now any bs octets.now (part_carried reading.now octets.now)) }
    {
        let name = part.name();
        let mut helds = self;
        helds.counts.take(reading, octets)?;
        let missing = helds.counts.missing();
        let news = helds.step(alloc, reading, any, missing, place, part)?;
        match news {
            None => Ok((helds, None)),
            Some(news) => Ok((helds, Some((name, news)))),
        }
    }

    /// Takes the packet that comes next, which carries no part.
    ///
    /// Errors: `Memory`.
    pub fn pass_over(self, reading: &Reading, octets: &[u8]) -> Result<HeldsAs, StreamFault>
        ensures held { (any : Bool) (bs : List (List ℕ)) (e : Skip)
            → HoldsEach reading.now any bs self → part_carried reading.now octets.now ≡ Err e
            → IfOk result (HoldsEach reading.now any (bs ++ octets.now ∷ [])) }
        ensures fault { IfErr result (λ e. e ≡ StreamFault.Memory) }
    {
        let mut helds = self;
        match helds.counts.take(reading, octets) {
            Ok(()) => Ok(helds),
            Err(_) => Err(StreamFault::Memory),
        }
    }

    /// What is left of a name: what `leave_as` tells of it, as two numbers.
    pub fn waiting(&self, name: Name) -> WaitingAs
        ensures { (r : Reading) (any : Bool) (bs : List (List ℕ)) → HoldsEach r any bs self.now
            → result ≡ waiting_of r any bs name }
    {
        match self.kept.get(&name) {
            Some(held) => held.waiting(),
            None => WaitingAs {
                count: 0,
                highest: 0,
            },
        }
    }

    // Takes a part of a name, up to which so many counts are missing, and gives what it tells of
    // it. The only error is out of memory.
    fn step(
        &mut self,
        alloc: Global,
        reading: &Reading,
        any: bool,
        missing: u64,
        place: u64,
        part: &CarriedPart<'_>,
    ) -> Result<Option<NewsAs>, AllocError>
        requires number { 1 ≤ part.now.part.number }
        requires short { length part.now.part.octets.now ≤ longest_packet }
        ensures steps { (c : Course)
            → IsHeld c (get name_cmp self.old.kept (name_of (part_named part.now)))
            → IfOk result (λ news. StepsAt (name_of (part_named part.now)) self.new.kept news
            (step reading.now any missing c (piece part.now.part))) }
        ensures others { OnOk result ((n : Name)
            → same_name (name_of (part_named part.now)) n ≡ false
            → get name_cmp self.new.kept n ≡ get name_cmp self.old.kept n) }
        ensures in_order { IsOrdered name_cmp self.new.kept }
        ensures counts { self.new.counts ≡ self.old.counts }
    {
        let name = part.name();
        match self.kept.get_mut(&name) {
            Some(kept) => kept.take(alloc, reading, any, missing, place, &part.part),
            None => {
                let mut course = CourseAs::behind(alloc, None);
                let news = course.take(alloc, reading, any, missing, place, &part.part)?;
                let kept = KeptAs::of(alloc, course)?;
                self.put(name, kept)?;
                Ok(news)
            }
        }
    }

    // Keeps this of a name. The only error is out of memory.
    fn put(&mut self, name: Name, kept: KeptAs) -> Result<(), AllocError>
        ensures kept { OnOk result (get name_cmp self.new.kept name ≡ Some kept) }
        ensures others { OnOk result ((n : Name) → same_name name n ≡ false
            → get name_cmp self.new.kept n ≡ get name_cmp self.old.kept n) }
        ensures in_order { IsOrdered name_cmp self.new.kept }
        ensures counts { self.new.counts ≡ self.old.counts }
    {
        self.kept.insert(name, kept)?;
        Ok(())
    }
}
