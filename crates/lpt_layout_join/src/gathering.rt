//! What is kept of a stream's packets.

ghost use Rattle.std.specs.Prelude.{◌≡◌, ◌≤◌, ◌∷◌, ◌++◌, ℕ, List, [], length, Some, OnOk};
ghost use Rattle.lpt_packet.specs.Sizes.{longest_packet};
ghost use Rattle.lpt_layout.specs.Parts.{piece};
ghost use Rattle.lpt_carried.specs.declared.name.Name.{Name};
ghost use Rattle.lpt_carried.specs.declared.reading.Reading.{Reading};
ghost use Rattle.lpt_carried.specs.Carried.{part_carried, part_of};
ghost use Rattle.lpt_stream.specs.declared.piece_kind.PieceKind.TheVariants.{Whole};
ghost use Rattle.lpt_stream.specs.Pieces.{Piece, octets_in, packets_of, up_to_limit};
ghost use Rattle.lpt_layout_join.specs.Counts.{all_counted, nothing_counted};
ghost use Rattle.lpt_layout_join.specs.Gathered.{order_by, place_if, place_or};

use crate::{CameAs, Order, PartNumbers};
use lpt_layout::PartAs;
use std::alloc::{AllocError, Global};

/// What a stream's packets have given of one transaction so far: what its parts are joined to, and
/// which of them came.
///
/// It takes at most twice as much memory as the octets of its parts and 12 octets for each of them,
/// however many packets come; and at most two octets for each number up to the highest, which is at
/// most 65,542.
#[derive(Drop)]
pub struct Gathering {
    /// What came of it.
    pub came: CameAs,
    /// Which of its parts came in their order.
    pub order: Order,
    /// Whether all of them did, with few sequence counts missing between them.
    pub sure: bool,
    /// Which parts came, also those that contradict others.
    pub numbers: PartNumbers,
    /// The place in the stream of the first packet whose part contradicts those before it: it broke
    /// the message off, or came once that was whole and is none of its parts.
    pub against: Option<u64>,
}

impl Gathering {
    ghost use Rattle.lpt_layout_join.specs.Gatherings.{Gives};

    /// What is kept of a transaction of which nothing has come yet.
    pub fn new(alloc: Global) -> Gathering
        ensures { (r : Reading) (n : Name) → Gives r n [] result }
    {
        Gathering {
            came: CameAs::new(alloc),
            order: Order::none(),
            sure: false,
            numbers: PartNumbers::new(alloc),
            against: None,
        }
    }

    /// Adds a part of the transaction that a packet carries which stands at a place of the stream,
    /// or beyond 2^64 - 1 if it is that, and up to which so many sequence counts are missing.
    /// The only error is out of memory.
    pub fn add(&mut self, missing: u64, place: u64, part: &PartAs<'_>) -> Result<(), AllocError>
        requires number { 1 ≤ part.now.number }
        requires within { part.now.number ≤ longest_packet }
        requires short { length part.now.octets.now ≤ longest_packet }
        ensures { (r : Reading) (n : Name) (ps : List Piece) (b : List ℕ) → Gives r n ps self.old
            → missing ≡ (all_counted r nothing_counted (packets_of ps ++ b ∷ [])).missing
            → place ≡ up_to_limit (octets_in ps)
            → part_of n (part_carried r b) ≡ Some (piece part.now)
            → OnOk result (Gives r n (ps ++ record { kind = Whole; octets = b } ∷ []) self.new) }
    {
        self.came.take(0, part)?;
        self.numbers.add(part.number, part.kind)?;
        let is_against = self.came.against().is_some();
        let order = order_with(self.order, is_against, part.number, missing);
        let sure = self.sure || order.is_whole(self.came.last());
        self.order = order;
        self.sure = sure;
        self.against = first_of(self.against, is_against, place);
        Ok(())
    }
}

// The order with a part of this number; one that contradicts those that came ends it.
fn order_with(order: Order, is_against: bool, number: u32, missing: u64) -> Order
    ensures { result ≡ order_by order is_against number missing }
{
    if is_against {
        Order::none()
    } else {
        order.with(number, missing)
    }
}

// The place that was found before, or this one if it is one.
fn first_of(found: Option<u64>, is_here: bool, place: u64) -> Option<u64>
    ensures { result ≡ place_or found (place_if is_here place) }
{
    match found {
        Some(place) => Some(place),
        None if is_here => Some(place),
        None => None,
    }
}
