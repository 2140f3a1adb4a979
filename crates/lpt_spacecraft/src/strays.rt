//! Octets of a stream that are astray.

ghost use Rattle.std.specs.Prelude.{◌≡◌, true};
ghost use Rattle.std.specs.Io.KnownBytes.{Keeps};
ghost use Rattle.lpt_stream.specs.Buffers.{cut_of, IsInFront};
ghost use Rattle.lpt_stream.specs.declared.cut.Cut.TheVariants.{Resumed};
ghost use Rattle.lpt_text.specs.Streams.{WriteEnds};
ghost use Rattle.lpt_spacecraft.specs.Fronts.{finds_stray, PassesOver};
ghost use Rattle.lpt_spacecraft.specs.Stretches.{is_stray};

use crate::Passing;
use crate::front::is_stray;
use lpt_stream::{Found, PacketBuffer, Peer, PieceKind};
use lpt_text::{Sink, StreamFault};

// Passes over the octet in front, which was found astray, and those behind it that are; gives how
// many they are.
//
// Errors: as `find_front` has them.
pub(crate) fn pass_over<P: Peer, K: Sink>(
    buffer: &mut PacketBuffer,
    passing: Passing,
    found: Found,
    peer: &mut P,
    out: &mut K,
) -> Result<u64, StreamFault>
    requires front { IsInFront buffer.old found }
    requires stray { is_stray found.kind ≡ true }
    requires cut { cut_of buffer.old ≡ Resumed passing.longest }
    ensures passes { PassesOver passing result buffer.old buffer.new (P.remaining peer.old)
        (P.remaining peer.new) (P.failed peer.old) (P.failed peer.new) }
    ensures same { Keeps (K.contents out.old) (K.contents out.new) }
    ensures writer { WriteEnds result (K.failed out.old) (K.failed out.new) }
{
    buffer.skip(found);
    for len in 1..u64::MAX {
        let next = buffer.find_piece_passing(peer, out)?;
        if !finds_stray(next) {
            return Ok(len);
        }
        buffer.skip(Found {
            kind: PieceKind::Stray,
            len: 1,
        });
    }
    Err(StreamFault::Read)
}

// Whether an octet that is astray was found.
fn finds_stray(found: Option<Found>) -> bool
    ensures { result ≡ finds_stray found }
{
    match found {
        None => false,
        Some(found) => is_stray(found.kind),
    }
}
