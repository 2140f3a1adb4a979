//! A stream of packets, handed over to a spacecraft that waits.

ghost use Rattle.std.specs.Prelude.{◌≡◌, ◌⊎◌, false, None, IfErr, IfOk};
ghost use Rattle.lpt_text.specs.Streams.{ReadEnds};
ghost use Rattle.lpt_spacecraft.specs.Waiting.{unwritten_fault, HandsOver, IsUnending};

use crate::front::{Front, find_front};
use crate::inlet::{Happening, Relay};
use crate::{Passing, Stop};
use lpt_packet::Octets;
use lpt_stream::{Cut, Found, PacketBuffer, Peer, PieceKind};
use lpt_text::{FromStd, StreamFault};
use std::alloc::Global;

/// Reads a stream of packets to its end, or up to what is no packet, or until no more is taken, and
/// hands over each packet. It is cut as `serve_stream` cuts it: if `passing` says so, what is no
/// packet is passed over, and what is handed over says where and how many octets that are.
///
/// It answers where it stopped, or none if no more is taken. Errors: `Read` if a read failed, or if
/// 2^64 - 1 packets and runs of others came, or so many octets are passed over; `Memory`, with
/// which some octets of the stream are lost. A front part was handed over.
pub fn relay_stream<P: Peer, R: Relay>(
    alloc: Global,
    passing: Passing,
    peer: &mut P,
    relay: &mut R,
) -> Result<Option<Stop>, StreamFault>
    ensures hands { HandsOver passing result (P.remaining peer.old) (P.remaining peer.new)
        (R.handed relay.old) (R.handed relay.new) }

    // If it answers none, no more is taken.
    ensures closed { IfOk result (λ stop. stop ≡ None → R.is_open relay.new ≡ false) }
    ensures fault { IfErr result (λ e. (e ≡ StreamFault.Read) ⊎ (e ≡ StreamFault.Memory)) }
    ensures reader { ReadEnds (IsUnending passing (P.remaining peer.old) (P.remaining peer.new))
        result (P.failed peer.old) (P.failed peer.new) }
{
    // Nothing is written here.
    let mut out = FromStd::new(Vec::new(alloc));
    let mut buffer = PacketBuffer::new(alloc, Cut::Resumed(passing.longest));
    let mut place: u64 = 0;
    for count in 0..u64::MAX {
        let len = match find_front(&mut buffer, passing, place, peer, &mut out) {
            Ok(Front::Packet(len)) => len,
            Ok(Front::Strays(len)) => {
                if !relay.hand(Happening::Skipped { place, len }) {
                    return Ok(None);
                }
                place = place.saturating_add(len);
                continue;
            }
            Ok(Front::Stop(stop)) => return Ok(Some(stop)),
            Err(fault) => return Err(unwritten_fault(fault)),
        };
        let Ok(octets) = Vec::from_slice(alloc, &buffer.octets_held()[..len]) else {
            return Err(StreamFault::Memory);
        };
        if !relay.hand(Happening::Packet(Octets::from_vec(octets))) {
            return Ok(None);
        }
        place = place.saturating_add(len as u64);
        buffer.skip(Found {
            kind: PieceKind::Whole,
            len,
        });
    }
    Err(StreamFault::Read)
}

// The same fault if nothing is written: no write ever fails then.
fn unwritten_fault(fault: StreamFault) -> StreamFault
    ensures { result ≡ unwritten_fault fault }
{
    match fault {
        StreamFault::Write => StreamFault::Memory,
        fault => fault,
    }
}
