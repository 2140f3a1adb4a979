//! How a list ends.

ghost use Rattle.std.specs.Prelude.{◌≡◌};
ghost use Rattle.lpt_list.specs.Lists.{tally_with};

use lpt_stream::PieceKind;

/// How the list of a stream ends.
#[derive(Clone, Copy)]
pub enum ListEnd {
    /// At the stream's end.
    Whole,
    /// At the first place at which no packet is, if no more was asked for.
    Stopped(u64),
}

/// How much of a stream is no packet. A count ends at 2^64 - 1.
#[derive(Clone, Copy)]
pub struct Tally {
    /// How many pieces are no packet, each as long as its header says.
    pub damaged: u64,
    /// How many octets besides are no packet.
    pub stray: u64,
}

/// What was listed.
#[derive(Clone, Copy)]
pub struct Listed {
    /// How the list ends.
    pub end: ListEnd,
    /// How much of what was listed is no packet.
    pub tally: Tally,
}

// The tally with a piece more.
pub(crate) fn tally_with(tally: Tally, kind: PieceKind) -> Tally
    ensures { result ≡ tally_with kind tally }
{
    let Tally { damaged, stray } = tally;
    match kind {
        PieceKind::Whole => tally,
        PieceKind::Damaged => Tally {
            damaged: damaged.saturating_add(1),
            stray,
        },
        PieceKind::Stray => Tally {
            damaged,
            stray: stray.saturating_add(1),
        },
    }
}
