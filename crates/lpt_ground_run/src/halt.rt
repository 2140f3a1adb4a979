//! Where the packets of a stream end.

ghost use Rattle.std.specs.Prelude.{◌≡◌};
ghost use Rattle.lpt_ground_run.specs.Halts.{halt_damaged, halt_of, is_end};

use lpt_stream::{packet_length, whole_length};

/// Where the packets of a stream end.
#[derive(Clone, Copy, Debug, PartialEq, Eq)]
pub enum Halt {
    /// At its end.
    End,
    /// Where no more are taken.
    Closed,
    /// At the octet of this number, counted from 0: no packet begins there, or one of another
    /// version. 2^64 - 1 stands for more, too.
    Stray(u64),
    /// At its end, within the packet that begins at the octet of this number, counted as for
    /// `Stray`; and how many octets that packet has, if its header has come whole.
    Within(u64, Option<usize>),
}

impl Halt {
    // Whether that is the stream's end, as far as it is known.
    pub(crate) fn is_end(self) -> bool
        ensures { result ≡ is_end self }
    {
        match self {
            Halt::End => true,
            Halt::Closed | Halt::Stray(_) | Halt::Within(_, _) => false,
        }
    }
}

// Where it ends if more is taken behind a packet, or isn't.
pub(crate) fn halt_of(more: bool) -> Halt
    ensures { result ≡ halt_of more }
{
    if more { Halt::End } else { Halt::Closed }
}

// Where it ends at a damaged packet of this place: the stream does within it, or, if it doesn't
// resume, it is of another version.
pub(crate) fn halt_damaged(resumes: bool, place: u64, octets: &[u8]) -> Halt
    ensures { result ≡ halt_damaged resumes place octets.now }
{
    if whole_length(octets).is_none() {
        return Halt::Within(place, packet_length(octets));
    }
    if resumes || octets.first().copied().unwrap_or(0) / 32 == 0 {
        Halt::End
    } else {
        Halt::Stray(place)
    }
}
