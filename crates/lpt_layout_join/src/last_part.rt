//! What a part tells of its message: the part size, or how many parts there are.

ghost use Rattle.std.specs.Prelude.{◌≡◌, ◌≤◌, length, true};
ghost use Rattle.lpt_packet.specs.Sizes.{longest_packet};
ghost use Rattle.lpt_layout.specs.Parts.{piece};
ghost use Rattle.lpt_layout_join.specs.Came.{ends_in, is_small, is_small_last, last_told, size_told};

use lpt_layout::PartAs;
use lpt_part::Kind;

/// A last part.
#[derive(Clone, Copy)]
pub struct LastPart {
    /// Its number, which is how many parts there are.
    pub number: u32,
    /// How many octets it has.
    pub len: usize,
}

// Whether parts up to this number, of which this is the last one, end with the last part of a
// whole, or before it.
pub(crate) fn ends_in(last: Option<LastPart>, greatest: usize, whole: Option<LastPart>) -> bool
    ensures { result ≡ ends_in last greatest whole }
{
    match (last, whole) {
        (_, None) => false,
        (None, Some(whole)) => greatest < whole.number as usize,
        (Some(last), Some(whole)) => last.number == whole.number,
    }
}

// The part size that a part tells, unless it is a last one.
pub(crate) fn size_told(part: &PartAs<'_>) -> Option<usize>
    requires { length part.now.octets.now ≤ longest_packet }
    ensures size { result ≡ size_told (piece part.now) }
    ensures small { is_small result ≡ true }
{
    match part.kind {
        Kind::First | Kind::Middle => Some(part.octets.len()),
        Kind::Last => None,
    }
}

// The last part, if this is it.
pub(crate) fn last_told(part: &PartAs<'_>) -> Option<LastPart>
    requires { length part.now.octets.now ≤ longest_packet }
    ensures last { result ≡ last_told (piece part.now) }
    ensures small { is_small_last result ≡ true }
{
    match part.kind {
        Kind::First | Kind::Middle => None,
        Kind::Last => Some(LastPart {
            number: part.number,
            len: part.octets.len(),
        }),
    }
}
