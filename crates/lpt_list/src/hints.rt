//! By which other layout a part would be read.

ghost use Rattle.std.specs.Prelude.{◌≡◌, Result};
ghost use Rattle.lpt_layout.specs.Messages.{message_verdict, message_said};
ghost use Rattle.lpt_layout.specs.Packets.{fields, Gives};
ghost use Rattle.lpt_packet.specs.Packets.{Sight};
ghost use Rattle.lpt_packet.specs.declared.fault.PacketFault.{PacketFault};
ghost use Rattle.lpt_carried.specs.Layouts.{SizeFits, SizesFit};
ghost use Rattle.lpt_list.specs.Hints.{bare, has_first_type, hint_for, hint_longer, hint_of, is_part, is_part_in, is_part_seen, longer, shows_part};

use crate::choice::{direction_of, kind_in};
use crate::parts::part_at;
use lpt_carried::{Layouts, Tailored};
use lpt_events::part_kind;
use lpt_layout::{Layout, Message, PacketAs, SeenAs, read_packet_as, read_tc_as, read_tm_as};
use lpt_packet::{PacketFault, PacketKind};
use lpt_part::Kind;

/// Another layout by which parts would be read.
#[derive(Clone, Copy)]
pub enum Hint {
    /// With so many octets of time, of telemetry.
    Time(u8),
    /// With so many spare octets, of telecommands, which have no time.
    Spare(u8),
    /// Without a packet error control.
    Bare,
}

/// By which other layout of its packet type octets would be read as the first part of a message,
/// if they aren't by this one: with 1 to 4 octets more of time, or spare ones of telecommands,
/// or without a packet error control, the first that fits. `None` if they are read, if no
/// such layout fits, and of other parts, whose numbers may be any.
pub fn hint_of(layouts: &Layouts, octets: &[u8]) -> Option<Hint>
    requires { SizesFit layouts.now }
    ensures { result ≡ hint_of layouts.now octets.now }
{
    let kind = kind_in(octets);
    let tailored = layouts.tailored_in(direction_of(kind));
    if !has_first_type(kind, octets) || shows_part(tailored, octets) {
        return None;
    }
    hint_for(kind, tailored, octets)
}

// Whether octets have the message type of a first part, which stands at one place by any layout.
fn has_first_type(kind: PacketKind, octets: &[u8]) -> bool
    ensures { result ≡ has_first_type kind octets.now }
{
    if octets.len() < 9 {
        return false;
    }
    let kind = part_kind(direction_of(kind), octets[7], octets[8]);
    matches!(kind, Some(Kind::First))
}

// The first of the other layouts by which octets would be read as a part.
fn hint_for(kind: PacketKind, tailored: &Tailored, octets: &[u8]) -> Option<Hint>
    requires { SizeFits tailored.now }
    ensures { result ≡ hint_for kind tailored.now octets.now }
{
    if shows_part(&longer(kind, tailored, 1), octets) {
        return Some(hint_longer(kind, tailored, 1));
    }
    if shows_part(&longer(kind, tailored, 2), octets) {
        return Some(hint_longer(kind, tailored, 2));
    }
    if shows_part(&longer(kind, tailored, 3), octets) {
        return Some(hint_longer(kind, tailored, 3));
    }
    if shows_part(&longer(kind, tailored, 4), octets) {
        return Some(hint_longer(kind, tailored, 4));
    }
    if shows_part(&bare(tailored), octets) {
        return Some(Hint::Bare);
    }
    None
}

// The same with so many octets more, up to 255: of time, or spare ones of telecommands.
fn longer(kind: PacketKind, tailored: &Tailored, more: u8) -> Tailored
    ensures { result ≡ longer kind more tailored.now }
{
    let packets = tailored.packets;
    let packets = match kind {
        PacketKind::Tm => Layout {
            time: packets.time.saturating_add(more),
            ..packets
        },
        PacketKind::Tc => Layout {
            spare: packets.spare.saturating_add(more),
            ..packets
        },
    };
    Tailored {
        packets,
        ..*tailored
    }
}

// What is told of that.
fn hint_longer(kind: PacketKind, tailored: &Tailored, more: u8) -> Hint
    ensures { result ≡ hint_longer kind more tailored.now }
{
    let packets = longer(kind, tailored, more).packets;
    match kind {
        PacketKind::Tm => Hint::Time(packets.time),
        PacketKind::Tc => Hint::Spare(packets.spare),
    }
}

// The same without a packet error control.
fn bare(tailored: &Tailored) -> Tailored
    ensures { result ≡ bare tailored.now }
{
    Tailored {
        packets: Layout {
            has_checksum: false,
            ..tailored.packets
        },
        ..*tailored
    }
}

// Whether octets are read as a packet that carries a part.
fn shows_part(tailored: &Tailored, octets: &[u8]) -> bool
    requires { SizeFits tailored.now }
    ensures { result ≡ shows_part tailored.now octets.now }
{
    is_part_seen(tailored, &read_packet_as(&tailored.packets, octets))
}

// Whether what was read is a packet that carries a part.
pub(crate) fn is_part_seen(tailored: &Tailored, seen: &Result<SeenAs<'_>, PacketFault>) -> bool
    requires { SizeFits tailored.now }
    ensures { (v : Result Sight PacketFault) → Gives seen.now v
        → result ≡ is_part_seen tailored.now v }
{
    match seen {
        Ok(SeenAs::Packet(packet)) => is_part_in(tailored, packet),
        Ok(SeenAs::Idle) | Err(_) => false,
    }
}

// Whether a packet is read as one that carries a part.
fn is_part_in(tailored: &Tailored, packet: &PacketAs<'_>) -> bool
    requires { SizeFits tailored.now }
    ensures { result ≡ is_part_in tailored.now packet.now.kind
        (message_verdict tailored.now.packets packet.now.kind (fields packet.now)) }
{
    let read = match packet.kind {
        PacketKind::Tc => read_tc_as(&tailored.packets, packet),
        PacketKind::Tm => read_tm_as(&tailored.packets, packet),
    };
    match read {
        Ok(message) => is_part(tailored, packet.kind, &message),
        Err(_) => false,
    }
}

// Whether a message carries a part.
fn is_part(tailored: &Tailored, kind: PacketKind, message: &Message<'_>) -> bool
    requires { SizeFits tailored.now }
    ensures { result ≡ is_part tailored.now kind (message_said message.now) }
{
    match part_kind(direction_of(kind), message.service, message.subtype) {
        Some(part) => part_at(tailored, part, message.body).is_some(),
        None => false,
    }
}
