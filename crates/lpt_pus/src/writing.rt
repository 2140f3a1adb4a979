//! Writing a telecommand or telemetry as a packet's octets.

ghost use Rattle.std.specs.Prelude.{◌≡◌, ◌+◌, ◌≤◌, ◌++◌, length, IfOk};
ghost use Rattle.lpt_packet.specs.Packets.{spelling};
ghost use Rattle.lpt_pus.specs.Commands.{command, packet_of};
ghost use Rattle.lpt_pus.specs.Messages.{Writes};
ghost use Rattle.lpt_pus.specs.Sizes.{longest_tc_body, longest_tm_body};
ghost use Rattle.lpt_pus.specs.Telemetry.{telemetry, as_written, tm_packet_of};

use crate::sizes::{LONGEST_TC_BODY, LONGEST_TM_BODY};
use crate::{PusFault, TcHead, TmHead};
use lpt_packet::{Octets, PacketKind, write_pieces};
use std::alloc::{AllocError, Global};

/// The octets of a telecommand's whole packet.
///
/// Errors: `TooLong` if the packet would have more than 65,542 octets, which is found before
/// any memory is taken; `Memory` if memory runs out.
pub fn write_tc(alloc: Global, head: &TcHead, body: &[u8]) -> Result<Octets, PusFault>
    ensures { Writes result (spelling (packet_of (command head.now body.now))) }
{
    if body.len() > LONGEST_TC_BODY {
        return Err(PusFault::TooLong);
    }
    tc_octets(alloc, head, body).map_err(|_| PusFault::Memory)
}

/// The octets of a telecommand's whole packet, for a body that is known to fit: at most 65,529
/// octets. The only error is out of memory.
pub fn tc_octets(alloc: Global, head: &TcHead, body: &[u8]) -> Result<Octets, AllocError>
    requires { length body.now ≤ longest_tc_body }
    ensures { IfOk result (λ o. o ≡ spelling (packet_of (command head.now body.now))) }
{
    tc_pieces(alloc, head, &[], body)
}

/// The octets of a telecommand's whole packet, for a body in two pieces, each of which is copied
/// once: together at most 65,529 octets. The only error is out of memory.
pub fn tc_pieces(
    alloc: Global,
    head: &TcHead,
    front: &[u8],
    rest: &[u8],
) -> Result<Octets, AllocError>
    requires { length front.now + length rest.now ≤ longest_tc_body }
    ensures { IfOk result (λ o. o
        ≡ spelling (packet_of (command head.now (front.now ++ rest.now)))) }
{
    let source = head.source.to_be_bytes();
    let header = [
        0x20 + head.flags,
        head.service,
        head.subtype,
        source[0],
        source[1],
    ];
    let kind = PacketKind::Tc;
    write_pieces(alloc, kind, head.apid, head.count, &header, front, rest)
}

/// The octets of a telemetry message's whole packet. The status is written as 0, whatever the
/// head's is.
///
/// Errors: `TooLong` if the packet would have more than 65,542 octets, which is found before
/// any memory is taken; `Memory` if memory runs out.
pub fn write_tm(alloc: Global, head: &TmHead, body: &[u8]) -> Result<Octets, PusFault>
    ensures { Writes result (spelling (tm_packet_of (as_written (telemetry head.now body.now)))) }
{
    if body.len() > LONGEST_TM_BODY {
        return Err(PusFault::TooLong);
    }
    tm_octets(alloc, head, body).map_err(|_| PusFault::Memory)
}

/// The octets of a telemetry message's whole packet, for a body that is known to fit: at most
/// 65,523 octets. The status is written as 0. The only error is out of memory.
pub fn tm_octets(alloc: Global, head: &TmHead, body: &[u8]) -> Result<Octets, AllocError>
    requires { length body.now ≤ longest_tm_body }
    ensures { IfOk result (λ o. o ≡ spelling (tm_packet_of (as_written (telemetry head.now body.now)))) }
{
    tm_pieces(alloc, head, &[], body)
}

/// The octets of a telemetry message's whole packet, for a body in two pieces, each of which is
/// copied once: together at most 65,523 octets. The status is written as 0. The only error is
/// out of memory.
pub fn tm_pieces(
    alloc: Global,
    head: &TmHead,
    front: &[u8],
    rest: &[u8],
) -> Result<Octets, AllocError>
    requires { length front.now + length rest.now ≤ longest_tm_body }
    ensures { IfOk result (λ o. o ≡ spelling (tm_packet_of
        (as_written (telemetry head.now (front.now ++ rest.now))))) }
{
    let counter = head.counter.to_be_bytes();
    let destination = head.destination.to_be_bytes();
    let time = head.time.to_be_bytes();
    let header = [
        0x20,
        head.service,
        head.subtype,
        counter[0],
        counter[1],
        destination[0],
        destination[1],
        time[0],
        time[1],
        time[2],
        time[3],
    ];
    let kind = PacketKind::Tm;
    write_pieces(alloc, kind, head.apid, head.count, &header, front, rest)
}
