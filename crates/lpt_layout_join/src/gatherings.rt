//! What is kept of each transaction among a stream's packets.

ghost use Rattle.std.specs.Prelude.{◌≡◌, ◌≤◌, ◌<◌, ◌+◌, ◌⊎◌, ℕ, List, [], ◌∷◌, ◌++◌, length, true, false, Option, Some, None, IfOk, OnOk, Ok};
ghost use Rattle.lpt_packet.specs.Sizes.{longest_packet};
ghost use Rattle.lpt_layout.specs.Parts.{piece};
ghost use Rattle.lpt_carried.specs.declared.name.Name.{Name};
ghost use Rattle.lpt_carried.specs.declared.reading.Reading.{Reading};
ghost use Rattle.lpt_carried.specs.Carried.{part_carried, name_of, part_named, same_name};
ghost use Rattle.lpt_layout_join.specs.declared.gathering.Gathering.{Gathering};
ghost use Rattle.lpt_layout_join.specs.Counts.{all_counted, nothing_counted};

use crate::Gathering;
use lpt_carried::{CarriedPart, Name};
use lpt_layout::PartAs;
use std::alloc::{AllocError, Global};
use std::collections::BTreeMap;

/// The most transactions of which something is kept.
pub const TRANSACTION_LIMIT: usize = 64;

/// What a stream's packets have given of each transaction so far, of those that are read alike. Of
/// more than 64, nothing is kept of those that came last.
#[derive(Drop)]
pub struct Gatherings {
    /// What is kept of each, by its name.
    pub kept: BTreeMap<Name, Gathering>,
    /// Whether a part came of one of which nothing is kept.
    pub has_more: bool,
}

impl Gatherings {
    ghost use Rattle.lpt_stream.specs.declared.piece_kind.PieceKind.TheVariants.{Whole};
    ghost use Rattle.lpt_stream.specs.Pieces.{Piece, octets_in, packets_of, up_to_limit};
    ghost use Rattle.lpt_layout_join.specs.Gatherings.{GivesEach, is_wanted, kept_of};
    ghost use Rattle.lpt_layout_join.specs.GatheringsInside.{IsAddedTo};

    /// What is kept before anything has come.
    pub fn new(alloc: Global) -> Gatherings
        ensures { (r : Reading) (w : Option Name) → GivesEach r w [] result }
    {
        Gatherings {
            kept: BTreeMap::new(alloc),
            has_more: false,
        }
    }

    /// Adds a part that a packet carries which stands at a place of the stream, or beyond 2^64 - 1
    /// if it is that, and up to which so many sequence counts are missing. The only error is out
    /// of memory.
    pub fn add(
        &mut self,
        alloc: Global,
        missing: u64,
        place: u64,
        part: &CarriedPart<'_>,
    ) -> Result<(), AllocError>
        requires number { 1 ≤ part.now.part.number }
        requires within { part.now.part.number ≤ longest_packet }
        requires short { length part.now.part.octets.now ≤ longest_packet }
        ensures { (r : Reading) (w : Option Name) (ps : List Piece) (b : List ℕ)
            → GivesEach r w ps self.old → is_wanted w (name_of (part_named part.now)) ≡ true
            → missing ≡ (all_counted r nothing_counted (packets_of ps ++ b ∷ [])).missing
            → place ≡ up_to_limit (octets_in ps)
            → part_carried r b ≡ Ok (part_named part.now)
            → OnOk result (GivesEach r w (ps ++ record { kind = Whole; octets = b } ∷ [])
            self.new) }
    {
        let name = part.name();
        if self.add_to_kept(name, missing, place, &part.part)? {
            return Ok(());
        }
        if !self.has_room() {
            self.has_more = true;
            return Ok(());
        }
        let mut gathering = Gathering::new(alloc);
        gathering.add(missing, place, &part.part)?;
        self.put(name, gathering)?;
        Ok(())
    }

    // Adds a part to what is kept of its transaction, if something is, and says whether it is.
    // The only error is out of memory.
    fn add_to_kept(
        &mut self,
        name: Name,
        missing: u64,
        place: u64,
        part: &PartAs<'_>,
    ) -> Result<bool, AllocError>
        requires number { 1 ≤ part.now.number }
        requires within { part.now.number ≤ longest_packet }
        requires short { length part.now.octets.now ≤ longest_packet }
        ensures { IfOk result (λ kept. IsAddedTo name missing place (piece part.now)
            self.old self.new kept) }
    {
        match self.kept.get_mut(&name) {
            Some(gathering) => {
                gathering.add(missing, place, part)?;
                Ok(true)
            }
            None => Ok(false),
        }
    }

    // Whether a transaction more can be kept, and none was left out.
    fn has_room(&self) -> bool
        ensures room { result ≡ true → (self.now.has_more ≡ false)
            × (length self.now.kept.entries < 64) }
        ensures full { result ≡ false → (self.now.has_more ≡ true)
            ⊎ (64 ≤ length self.now.kept.entries) }
    {
        !self.has_more && self.kept.len() < TRANSACTION_LIMIT
    }

    // Keeps this of a transaction of which nothing is kept. The only error is out of memory.
    fn put(&mut self, name: Name, gathering: Gathering) -> Result<(), AllocError>
        requires { kept_of self.old name ≡ None }
        ensures kept { OnOk result (kept_of self.new name ≡ Some gathering) }
        ensures size { OnOk result (length self.new.kept.entries
            ≡ length self.old.kept.entries + 1) }
        ensures others { OnOk result ((n : Name) → same_name name n ≡ false
            → kept_of self.new n ≡ kept_of self.old n) }
        ensures more { self.new.has_more ≡ self.old.has_more }
    {
        self.kept.insert(name, gathering)?;
        Ok(())
    }
}
