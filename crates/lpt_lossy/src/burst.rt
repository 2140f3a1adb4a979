//! Changed bits.

ghost use Rattle.std.specs.Prelude.{◌≡◌, length, true, IfOk};
ghost use Rattle.lpt_packet.specs.Packets.{packet_seen};
ghost use Rattle.lpt_lossy.specs.Bursts.{can_change, bits_changed, is_read, is_within, shows_changes, tailored_for};

use crate::{Burst, Layouts};
use lpt_packet::{Octets, PacketFault, PacketKind, Seen, read_packet};
use std::alloc::{AllocError, Global};

// Whether a burst changes bits, within so many octets: those of the header if it is said to, and
// else none of the first octet and of the length field, by which a stream is cut.
fn is_within(burst: &Burst, len: usize) -> bool
    ensures { result ≡ is_within burst.now len }
{
    let at = burst.at;
    let has_bits = burst.first > 0 || burst.second > 0;
    let is_there = if burst.in_header {
        at < 5
    } else {
        (at > 0 && at < 3) || at > 5
    };
    has_bits && is_there && at < len && at + 1 < len
}

// Whether octets of these layouts are changed by a burst: it is within them, and they are a packet
// whose checksum shows that they were.
pub(crate) fn can_change(layouts: &Layouts, burst: &Burst, octets: &[u8]) -> bool
    ensures { result ≡ can_change layouts.now burst.now octets.now }
{
    is_within(burst, octets.len()) && shows_changes(layouts, octets)
}

// Whether octets read as a packet that isn't idle, of a type that has a checksum.
fn shows_changes(layouts: &Layouts, octets: &[u8]) -> bool
    ensures { result ≡ shows_changes layouts.now (packet_seen octets.now) }
{
    is_read(layouts, &read_packet(octets))
}

// Whether what was read is such a packet.
fn is_read(layouts: &Layouts, read: &Result<Seen<'_>, PacketFault>) -> bool
    ensures { result ≡ is_read layouts.now read.now }
{
    match read {
        Ok(Seen::Packet(packet)) => has_checksum(layouts, packet.kind),
        Ok(Seen::Idle) | Err(_) => false,
    }
}

// Whether packets of a type have a checksum.
fn has_checksum(layouts: &Layouts, kind: PacketKind) -> bool
    ensures { result ≡ (tailored_for kind layouts.now).packets.has_checksum }
{
    match kind {
        PacketKind::Tm => layouts.telemetry.packets.has_checksum,
        PacketKind::Tc => layouts.telecommands.packets.has_checksum,
    }
}

// A copy of octets with those bits changed. The only error is out of memory.
pub(crate) fn bits_changed(
    alloc: Global,
    burst: &Burst,
    octets: &[u8],
) -> Result<Octets, AllocError>
    requires { is_within burst.now (length octets.now) ≡ true }
    ensures { IfOk result (λ o. o ≡ bits_changed burst.now octets.now) }
{
    let at = burst.at;
    let two = [octets[at] ^ burst.first, octets[at + 1] ^ burst.second];
    let mut copy = Octets::from_vec(Vec::from_slice(alloc, octets)?);
    copy.overwrite(at, &two);
    Ok(copy)
}
