//! What is found in packets.

ghost use Rattle.std.specs.Prelude.{◌≡◌, Result, is_err, is_ok};
ghost use Rattle.lpt_layout.specs.Messages.{message_verdict};
ghost use Rattle.lpt_layout.specs.Packets.{fields, Gives};
ghost use Rattle.lpt_packet.specs.Packets.{Sight};
ghost use Rattle.lpt_packet.specs.declared.fault.PacketFault.{PacketFault};
ghost use Rattle.lpt_carried.specs.Layouts.{SizesFit};
ghost use Rattle.lpt_list.specs.Told.{hint_with, is_read_as, told_none, told_with};

use crate::Hint;
use crate::choice::{direction_of, kind_in};
use crate::hints::{hint_of, is_part_seen};
use lpt_carried::Layouts;
use lpt_layout::{Layout, PacketAs, SeenAs, read_packet_as, read_tc_as, read_tm_as};
use lpt_packet::{PacketFault, PacketKind};

/// What was found in packets. A count ends at 2^64 - 1.
#[derive(Clone, Copy)]
pub struct Told {
    /// How many packets fail a test of their layout's packets.
    pub refused: u64,
    /// How many carry a part that is read.
    pub parts: u64,
    /// By which other layout the first part would be read that isn't read by this one, but would be
    /// by another.
    pub hint: Option<Hint>,
}

// Nothing was found.
pub(crate) fn nothing_told() -> Told
    ensures { result ≡ told_none }
{
    Told {
        refused: 0,
        parts: 0,
        hint: None,
    }
}

// What was found, with a packet more, or octets that fail a test.
pub(crate) fn told_with(told: Told, layouts: &Layouts, octets: &[u8]) -> Told
    requires { SizesFit layouts.now }
    ensures { result ≡ told_with layouts.now octets.now told }
{
    let tailored = layouts.tailored_in(direction_of(kind_in(octets)));
    let seen = read_packet_as(&tailored.packets, octets);
    let (refused, parts) = (is_refused(&seen), is_part_seen(tailored, &seen));
    Told {
        refused: told.refused.saturating_add(u64::from(refused)),
        parts: told.parts.saturating_add(u64::from(parts)),
        hint: hint_with(told.hint, layouts, octets),
    }
}

// The hint that was found, or that of octets more.
fn hint_with(hint: Option<Hint>, layouts: &Layouts, octets: &[u8]) -> Option<Hint>
    requires { SizesFit layouts.now }
    ensures { result ≡ hint_with layouts.now octets.now hint }
{
    match hint {
        Some(hint) => Some(hint),
        None => hint_of(layouts, octets),
    }
}

// Whether what was read fails a test.
fn is_refused(seen: &Result<SeenAs<'_>, PacketFault>) -> bool
    ensures { (v : Result Sight PacketFault) → Gives seen.now v → result ≡ is_err v }
{
    match seen {
        Ok(_) => false,
        Err(_) => true,
    }
}

/// Whether octets are read by the layout of their packet type: an idle packet, or one with a
/// secondary header of the layout.
pub fn is_read(layouts: &Layouts, octets: &[u8]) -> bool
    ensures { result ≡ is_read_as layouts.now octets.now }
{
    let kind = kind_in(octets);
    let layout = &layouts.tailored_in(direction_of(kind)).packets;
    match read_packet_as(layout, octets) {
        Ok(SeenAs::Idle) => true,
        Ok(SeenAs::Packet(packet)) => is_message(layout, &packet),
        Err(_) => false,
    }
}

// Whether a packet has a secondary header of the layout.
fn is_message(layout: &Layout, packet: &PacketAs<'_>) -> bool
    ensures { result ≡ is_ok (message_verdict layout.now packet.now.kind (fields packet.now)) }
{
    match packet.kind {
        PacketKind::Tc => read_tc_as(layout, packet).is_ok(),
        PacketKind::Tm => read_tm_as(layout, packet).is_ok(),
    }
}
