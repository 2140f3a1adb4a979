//! What is read in place of the pieces of a stream, if some carry parts of messages.

use lpt_packet::Octets;
use lpt_stream::{Cut, PieceKind};
use lpt_text::StreamFault;
use std::alloc::Global;

/// What is read in place of a piece.
#[derive(Drop)]
pub(crate) enum InPlace {
    /// The piece itself.
    Itself,
    /// The message that became whole with its part.
    Message(Octets),
    /// Nothing: its message isn't whole.
    Nothing,
}

/// Joins parts, and tells a taker what becomes of them.
pub(crate) trait Joins<T>: Drop {
    ghost use Rattle.std.specs.Prelude.{◌≡◌, ◌⊎◌, ◌++◌, ℕ, [], List, IfErr, IfOk, OnOk};
    ghost use Rattle.lpt_text.specs.declared.fault.StreamFault.{StreamFault};
    ghost use Rattle.lpt_stream.specs.declared.cut.Cut.{Cut};
    ghost use Rattle.lpt_stream.specs.Pieces.{IsSealedBy, packet_before};
    ghost use Rattle.lpt_extract.specs.Joined.{Reads};
    ghost use Rattle.lpt_extract.specs.JoinedInside.{IsInPlace};

    // How its stream is cut.
    ghost cut: { Self → Cut };

    // What is read in place of packets.
    ghost reads: { Self → Reads };

    // What it has become by these packets.
    ghost keeps: { (first now : Self) → List (List ℕ) → Type 0 };

    // What was told of these packets as they came.
    ghost tells: { (first : Self) → (old new : T) → List (List ℕ) → Type 0 };

    // What was told of them up to the end of their stream.
    ghost tells_all: { (first : Self) → (old new : T) → List (List ℕ) → Type 0 };

    /// How its stream is cut.
    fn cut(&self) -> Cut
        ensures { result ≡ cut self.now };

    /// Joins the part that the next piece carries, if it does, and tells what becomes of it.
    ///
    /// Errors: those of the taker; `Memory`.
    fn gather(
        self,
        alloc: Global,
        taker: &mut T,
        place: u64,
        kind: PieceKind,
        octets: &[u8],
    ) -> Result<(Self, InPlace), StreamFault>
        requires before { (first : Self) × (bs : List (List ℕ)) × keeps first self bs }
        requires sealed { IsSealedBy (cut self) kind octets.now }
        ensures kept { (first : Self) (bs : List (List ℕ)) → keeps first self bs
            → IfOk result (λ x. keeps first x.0 (bs ++ packet_before kind octets.now [])) }
        ensures told { (first : Self) (old : T) (bs : List (List ℕ)) → keeps first self bs
            → tells first old taker.old bs
            → IfOk result (λ _. tells first old taker.new
            (bs ++ packet_before kind octets.now [])) }
        ensures placed { (first : Self) (bs : List (List ℕ)) → keeps first self bs
            → IfOk result (λ x. IsInPlace (reads first) bs kind octets.now x.1) }
        ensures same { IfOk result (λ x. cut x.0 ≡ cut self) }
        ensures fault { IfErr result (λ e. (e ≡ StreamFault.Write) ⊎ (e ≡ StreamFault.Memory)) };

    /// Tells what is left of each name at the end of the stream.
    ///
    /// Errors: those of the taker.
    fn leave(self, taker: &mut T) -> Result<(), StreamFault>
        ensures told { (first : Self) (old : T) (bs : List (List ℕ)) → keeps first self bs
            → tells first old taker.old bs → OnOk result (tells_all first old taker.new bs) }
        ensures fault { IfErr result (λ e. (e ≡ StreamFault.Write) ⊎ (e ≡ StreamFault.Memory)) };
}
