//! A delivered packet, read before the node that it is for is looked at.

ghost use Rattle.std.specs.Prelude.{◌≡◌, ◌↔◌, ◌+◌, ◌≤◌, ℕ, List, length, Some, IsTrue};
ghost use Rattle.lpt_packet.specs.Numbers.{IsOctets};
ghost use Rattle.lpt_packet.specs.Packets.{APacket, fields, packet_seen};
ghost use Rattle.lpt_part.specs.Splitting.{IsPartSize};
ghost use Rattle.lpt_events.specs.declared.side.Side.TheVariants.{Ground, Craft};
ghost use Rattle.lpt_node.specs.ParsedViews.{arrival_from};
ghost use Rattle.lpt_events.specs.Arrivals.{arrival};
ghost use Rattle.lpt_node.specs.Layouts.{arrival_by, body_from, IsLayout, IsLayoutIn, IsWithin, Shows};

use crate::arrival::{Arrival, Layout};
use lpt_events::{Side, part_kind};
use lpt_packet::laws::seen_is_read;
use lpt_packet::{Direction, Name, Octets, Packet, Seen, read_packet};
use lpt_part::{ABORT, TRANSFER, read_abort, read_part};
use lpt_pus::laws::bodies_stand_last;
use lpt_pus::{TC_HEADER, TM_HEADER, read_tc, read_tm};
use std::marker::Model;

/// A delivered packet with what it is to an end of the link, so far as that depends on no state.
#[derive(Drop)]
pub struct Parsed {
    octets: Octets,
    side: Side,
    apid: u16,
    p: u32,
    layout: Layout,
}

impl Model for Parsed {
    ghost use Rattle.lpt_node.specs.ParsedViews.{ParsedView};
    ghost use Rattle.lpt_node.specs.Codes.{coded_parsed};

    ghost Value = { ParsedView };

    ghost coded = { coded_parsed };

    ghost use Rattle.lpt_node.specs.Layouts.{IsLayout};

    ghost view = { λ a. record { octets = a.octets; side = a.side; apid = a.apid; p = a.p } };

    ghost invariant = { λ a. IsLayout a.side a.apid a.p a.octets a.layout };
}

impl Parsed {
    /// Reads octets that were delivered to this side, for packets of this APID and parts of `p`
    /// octets. It takes no memory.
    pub fn read(octets: Octets, side: Side, apid: u16, p: u32) -> Parsed
        requires { IsPartSize p }
        ensures { result ≡ record { octets = octets; side = side; apid = apid; p = p } }
    {
        let layout = layout_in(octets.as_slice(), side, apid);
        Parsed {
            octets,
            side,
            apid,
            p,
            layout,
        }
    }

    /// Whether it was read from these octets, for this side, APID and part size.
    pub fn is_of(&self, octets: &[u8], side: Side, apid: u16, p: u32) -> bool
        ensures { IsTrue result ↔ (self.now ≡ record { octets = octets.now; side = side; apid = apid; p = p }) }
    {
        self.octets.as_slice() == octets && self.side == side && self.apid == apid && self.p == p
    }

    // The octets that it was read from, borrowed.
    pub(crate) fn octets(&self) -> &Octets
        ensures { result.now ≡ self.now.octets }
    {
        &self.octets
    }

    // The octets that it was read from.
    pub(crate) fn into_octets(self) -> Octets
        ensures { result ≡ self.octets }
    {
        let Parsed {
            octets,
            side: _,
            apid: _,
            p: _,
            layout: _,
        } = self;
        octets
    }

    // What it shows.
    pub(crate) fn arrival(&self) -> Arrival<'_>
        ensures { Shows self.now.p self.now.octets result (arrival_from self.now) }
    {
        arrival_by(self.layout, self.octets.as_slice(), self.p)
    }
}

// What octets show that were delivered to this side, for packets of this APID and parts of `p` octets.
#[inline(always)]
pub(crate) fn arrival_in(octets: &[u8], side: Side, apid: u16, p: u32) -> Arrival<'_>
    requires { IsPartSize p }
    ensures { Shows p octets.now result (arrival side apid p octets.now) }
{
    arrival_by(layout_in(octets, side, apid), octets, p)
}

// What octets show in which this was found.
#[inline(always)]
fn arrival_by(layout: Layout, octets: &[u8], p: u32) -> Arrival<'_>
    requires within { IsWithin octets.now layout }
    requires part_size { IsPartSize p }
    ensures { Shows p octets.now result (arrival_by p octets.now layout) }
{
    match layout {
        Layout::Unreadable => Arrival::Unreadable,
        Layout::Idle => Arrival::Idle,
        Layout::Foreign => Arrival::Foreign,
        Layout::Request => Arrival::Request,
        Layout::Report(service, subtype) => Arrival::Report(service, subtype),
        Layout::Part(kind, source, from) => match read_part(kind, body_from(octets, from), p) {
            Ok(part) => Arrival::Part(source, part),
            Err(_) => Arrival::BadPart,
        },
        Layout::Abort(source, from) => match read_abort(body_from(octets, from)) {
            Ok((id, reason)) => Arrival::Abort(Name { source, id }, reason),
            Err(_) => Arrival::BadPart,
        },
    }
}

// The body that stands in a packet's data field from a place on.
fn body_from(octets: &[u8], from: usize) -> &[u8]
    requires { from + 8 ≤ length octets.now }
    ensures { result.now ≡ body_from octets.now from }
{
    let field = &octets[6..octets.len() - 2];
    &field[from..]
}

// What octets are to this side.
fn layout_in(octets: &[u8], side: Side, apid: u16) -> Layout
    requires { IsOctets octets.now }
    ensures { (p : ℕ) → IsPartSize p → IsLayout side apid p octets.now result }
{
    seen_is_read();
    match read_packet(octets) {
        Err(_) => Layout::Unreadable,
        Ok(Seen::Idle) => Layout::Idle,
        Ok(Seen::Packet(packet)) => {
            if packet.apid != apid {
                return Layout::Foreign;
            }
            match side {
                Side::Craft => layout_in_uplink(&packet),
                Side::Ground => layout_in_downlink(&packet),
            }
        }
    }
}

// What a packet of the configured APID is to the spacecraft.
fn layout_in_uplink(packet: &Packet<'_>) -> Layout
    ensures { (b : List ℕ) → packet_seen b ≡ Some (APacket (fields packet.now))
        → IsLayoutIn Craft (fields packet.now) b result }
{
    bodies_stand_last();
    let Ok((head, _)) = read_tc(packet) else {
        return Layout::Unreadable;
    };
    match part_kind(Direction::Up, head.service, head.subtype) {
        Some(kind) => Layout::Part(kind, head.source, TC_HEADER),
        None => Layout::Request,
    }
}

// What a packet of the configured APID is on ground.
fn layout_in_downlink(packet: &Packet<'_>) -> Layout
    ensures { (b : List ℕ) → packet_seen b ≡ Some (APacket (fields packet.now))
        → IsLayoutIn Ground (fields packet.now) b result }
{
    bodies_stand_last();
    let Ok((head, _)) = read_tm(packet) else {
        return Layout::Unreadable;
    };
    match part_kind(Direction::Down, head.service, head.subtype) {
        Some(kind) => Layout::Part(kind, head.destination, TM_HEADER),
        None => {
            if head.service == TRANSFER && head.subtype == ABORT {
                Layout::Abort(head.destination, TM_HEADER)
            } else {
                Layout::Report(head.service, head.subtype)
            }
        }
    }
}
