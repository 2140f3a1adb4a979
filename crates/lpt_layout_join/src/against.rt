//! Whether a part contradicts those that came.

ghost use Rattle.std.specs.Prelude.{◌≡◌, ◌≤◌, ◌-◌, length, true};
ghost use Rattle.lpt_packet.specs.Sizes.{longest_packet};
ghost use Rattle.lpt_layout.specs.Parts.{piece};
ghost use Rattle.lpt_part.specs.Parts.{length_test};
ghost use Rattle.lpt_layout_join.specs.Slots.{at};
ghost use Rattle.lpt_layout_join.specs.Came.{is_small, is_small_last, other_end, other_octets, other_size};

use crate::LastPart;
use crate::slots::Slots;
use lpt_layout::PartAs;
use lpt_packet::LONGEST_PACKET;
use lpt_part::Kind;

// Whether other octets are kept of a part's number.
pub(crate) fn other_octets(slots: &Slots, part: &PartAs<'_>) -> bool
    requires { 1 ≤ part.now.number }
    ensures { result ≡ other_octets (at slots.now (part.now.number - 1)) part.now.octets.now }
{
    match slots.part_at(part.number as usize - 1) {
        Some(octets) => octets != part.octets,
        None => false,
    }
}

// Whether a part's length isn't one for this part size.
pub(crate) fn other_size(size: Option<usize>, part: &PartAs<'_>) -> bool
    requires small { is_small size ≡ true }
    requires short { length part.now.octets.now ≤ longest_packet }
    ensures { result ≡ other_size size (piece part.now) }
{
    match size {
        Some(size) => !length_fits(part.kind, part.number, part.octets.len(), size),
        None => false,
    }
}

// Whether a part isn't where the last part has it.
pub(crate) fn other_end(last: Option<LastPart>, greatest: usize, part: &PartAs<'_>) -> bool
    requires small { is_small_last last ≡ true }
    requires short { length part.now.octets.now ≤ longest_packet }
    ensures { result ≡ other_end part.now.kind last greatest (piece part.now) }
{
    let (number, len) = (part.number, part.octets.len());
    match (part.kind, last) {
        (Kind::Last, None) => number as usize <= greatest,
        (Kind::Last, Some(last)) => last.number != number,
        (_, None) => false,
        (_, Some(last)) => {
            last.number <= number || !length_fits(Kind::Last, last.number, last.len, len)
        }
    }
}

// Whether a part of this kind and number may have so many octets, for parts of `size` octets.
fn length_fits(kind: Kind, number: u32, len: usize, size: usize) -> bool
    requires len { len ≤ longest_packet }
    requires size { size ≤ longest_packet }
    ensures { result ≡ length_test kind number len size }
{
    let least = match kind {
        Kind::First | Kind::Middle => size,
        Kind::Last => 1,
    };
    let before = (number as usize).saturating_sub(1) * size;
    least <= len && len <= size && before + len <= LONGEST_PACKET
}
