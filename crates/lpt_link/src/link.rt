//! The link.

ghost use Rattle.std.specs.Prelude.{◌≡◌, ◌↔◌, ◌+◌, ◌<◌, ◌≤◌, length, IfOk, IfErr, OnOk, OnErr, IsOk, IsSome, IsTrue, IfNone, IfSome, is_some};
ghost use Rattle.std.specs.Option.{option_copied};
ghost use Rattle.std.specs.Result.{result_err};
ghost use Rattle.lpt_events.specs.Lanes.{lane_direction};
ghost use Rattle.lpt_link.specs.Counts.{HasPlace, KeepsPlaces};
ghost use Rattle.lpt_link.specs.Links.{empty_link, octets_at, is_held, is_held_for, hand_of, hand_has, any_held, any_in_hand, holds, after_put, after_lose, after_take, after_drop, refusal_lose, refusal_take, refusal_drop, IsNumberOf};

use crate::LinkFault;
use crate::hands::Hands;
use crate::packet::LinkPacket;
use crate::packets::Packets;
use crate::tags::Tags;
use lpt_events::Lane;
use lpt_packet::{Direction, Name, Octets};
use std::alloc::{AllocError, Global};
use std::marker::Model;
use thiserror::Error;

/// The link: its packets and the lanes' hands, and how many held packets are of each transaction.
#[derive(Drop)]
pub struct Link {
    packets: Packets,
    hands: Hands,
    tags: Tags,
}

impl Model for Link {
    ghost use Rattle.lpt_link.specs.Links.{LinkView, IsSound};
    ghost use Rattle.lpt_link.specs.LinksInside.{IsIndex};

    ghost Value = { LinkView };

    ghost view = { λ l. record {
      at = record { packets = l.packets.items; hands = l.hands };
      spare = l.packets.spare;
      places = l.tags;
    } };

    ghost invariant = { λ l. IsSound (record { packets = l.packets.items; hands = l.hands })
        × IsIndex l.tags (record { packets = l.packets.items; hands = l.hands }) };
}

/// Why a packet wasn't put, and its octets.
#[derive(Debug, Drop, Error)]
#[error("{fault}")]
pub struct PutError {
    /// The reason, `Memory`.
    pub fault: LinkFault,
    /// The octets that were to be put.
    pub octets: Octets,
}

impl Link {
    /// An empty link, and four empty hands. The only error is out of memory.
    pub fn new(alloc: Global) -> Result<Link, AllocError>
        ensures { IfOk result (λ l. l.at ≡ empty_link) }
    {
        Ok(Link {
            packets: Packets::new(alloc)?,
            hands: Hands::empty(),
            tags: Tags::new(alloc),
        })
    }

    /// How many packets were put, lost ones among them.
    pub fn packets(&self) -> u64
        ensures { result ≡ length self.now.at.packets }
    {
        self.packets.len() as u64
    }

    /// The octets of the packet numbered `n`, lost or not. `None` if no packet has that number.
    pub fn packet(&self, n: u64) -> Option<&[u8]>
        ensures value { option_copied result ≡ octets_at self.now.at n }
        ensures some { IsSome result ↔ (n < length self.now.at.packets) }
    {
        self.packets.octets(n)
    }

    /// Whether the link holds the packet numbered `n`.
    pub fn is_held(&self, n: u64) -> bool
        ensures { result ≡ is_held self.now.at n }
    {
        match self.packets.head(n) {
            Some(head) => head.held,
            None => false,
        }
    }

    /// The number of the packet in the lane's hand. The packet goes in the lane's direction.
    pub fn hand(&self, lane: Lane) -> Option<u64>
        ensures value { result ≡ hand_of self.now.at lane }
        ensures numbered { IfSome result (IsNumberOf self.now.at (lane_direction lane)) }
    {
        self.hands.of(lane)
    }

    /// Why the lane can't take the packet of this number now, the first reason as `take` gives it.
    pub fn refusal_take(&self, lane: Lane, n: u64) -> Option<LinkFault>
        ensures value { result ≡ refusal_take self.now.at lane n }
        ensures held { IfNone result (IsTrue (is_held_for self.now.at (lane_direction lane) n)) }
    {
        if self.hand(lane).is_some() {
            return Some(LinkFault::HandFull);
        }
        if !self.is_held_for(lane.direction(), n) {
            return Some(LinkFault::NotHeld);
        }
        None
    }

    /// Why the lane's hand can't be emptied now, as `drop_hand` gives it.
    pub fn refusal_drop(&self, lane: Lane) -> Option<LinkFault>
        ensures { result ≡ refusal_drop self.now.at lane }
    {
        match self.hand(lane) {
            Some(_) => None,
            None => Some(LinkFault::HandEmpty),
        }
    }

    /// Whether a held packet, or one in a hand, is a part of this transaction: it goes in this
    /// direction and was put with this tag. A packet in a hand counts even if it was lost since.
    pub fn holds(&self, direction: Direction, name: Name) -> bool
        ensures { result ≡ holds self.now.at direction name }
    {
        self.any_held(direction, name) || self.is_in_hand(direction, name)
    }

    /// Makes room for `n` packets more, and the place of a transaction, so that so many packets with
    /// no tag or this one can be put without taking memory.
    ///
    /// Errors: out of memory alone. Then nothing has changed.
    #[inline(always)]
    pub fn reserve(&mut self, n: u64, tag: Option<(Direction, Name)>) -> Result<(), AllocError>
        ensures room { OnOk result (n ≤ self.new.spare) }
        ensures place { OnOk result (IfSome tag (λ t. HasPlace self.new.places t.0 t.1)) }
        ensures same { self.new.at ≡ self.old.at }
        ensures spare { self.old.spare ≤ self.new.spare }
        ensures places { KeepsPlaces self.old.places self.new.places }
    {
        self.packets.reserve(n as usize)?;
        match tag {
            Some((direction, name)) => self.place(direction, Some(name)),
            None => Ok(()),
        }
    }

    /// Puts a packet on the link, which holds it from now on. The result is its number: how many
    /// were put before. `tag` is the name of the transaction that it is a part of, or `None`.
    ///
    /// It takes the room of one packet.
    /// Errors: `Memory`, with the octets. Then nothing has changed. With spare room, and with no tag
    /// or one that has its place, it never comes.
    pub fn put(
        &mut self,
        direction: Direction,
        tag: Option<Name>,
        octets: Octets,
    ) -> Result<u64, PutError>
        ensures number { IfOk result (λ n. n ≡ length self.old.at.packets) }
        ensures ok { OnOk result (self.new.at ≡ after_put self.old.at direction tag octets) }
        ensures room { 0 < self.old.spare → IfSome tag (HasPlace self.old.places direction) → IsOk result }
        ensures spare { self.old.spare ≤ self.new.spare + 1 }
        ensures places { KeepsPlaces self.old.places self.new.places }
        ensures err { OnErr result (self.new.at ≡ self.old.at) }
        ensures memory { IfErr result (λ e. (e.fault ≡ LinkFault.Memory) × (e.octets ≡ octets)) }
    {
        match self.place(direction, tag) {
            Ok(()) => self.put_placed(direction, tag, octets),
            Err(_) => Err(PutError {
                fault: LinkFault::Memory,
                octets,
            }),
        }
    }

    /// Loses the packet numbered `n`: the link holds it no more. Its octets stay readable, and it
    /// stays in the hands that it is in.
    ///
    /// Errors: `NotHeld`, the link doesn't hold it. Then nothing has changed.
    pub fn lose(&mut self, n: u64) -> Result<(), LinkFault>
        ensures ok { OnOk result (self.new.at ≡ after_lose self.old.at n) }
        ensures spare { self.new.spare ≡ self.old.spare }
        ensures refused { result_err result ≡ refusal_lose self.old.at n }
        ensures err { OnErr result (self.new.at ≡ self.old.at) }
    {
        match self.packets.head(n) {
            Some(head) if head.held => {
                self.tags.remove(head.direction, head.tag);
                self.packets.lose(n);
                Ok(())
            }
            _ => Err(LinkFault::NotHeld),
        }
    }

    /// Takes the packet numbered `n` into the lane's hand. It stays held.
    ///
    /// Errors, the first that applies: `HandFull`, the hand has a packet; `NotHeld`, the link
    /// doesn't hold the packet, or it goes in the other direction. Then nothing has changed.
    pub fn take(&mut self, lane: Lane, n: u64) -> Result<(), LinkFault>
        ensures ok { OnOk result (self.new.at ≡ after_take self.old.at lane n) }
        ensures spare { self.new.spare ≡ self.old.spare }
        ensures refused { result_err result ≡ refusal_take self.old.at lane n }
        ensures err { OnErr result (self.new.at ≡ self.old.at) }
    {
        if let Some(fault) = self.refusal_take(lane, n) {
            return Err(fault);
        }
        self.hands.put(lane, Some(n));
        Ok(())
    }

    /// Empties the lane's hand. The result is the number of the packet that it had.
    ///
    /// Errors: `HandEmpty`, it has none. Then nothing has changed.
    pub fn drop_hand(&mut self, lane: Lane) -> Result<u64, LinkFault>
        ensures number { IfOk result (λ n. hand_of self.old.at lane ≡ Some n) }
        ensures ok { OnOk result (self.new.at ≡ after_drop self.old.at lane) }
        ensures spare { self.new.spare ≡ self.old.spare }
        ensures refused { result_err result ≡ refusal_drop self.old.at lane }
        ensures err { OnErr result (self.new.at ≡ self.old.at) }
    {
        let number = self.hands.of(lane).ok_or(LinkFault::HandEmpty)?;
        self.hands.put(lane, None);
        Ok(number)
    }

    // Whether a held packet is a part of this transaction.
    fn any_held(&self, direction: Direction, name: Name) -> bool
        ensures { result ≡ any_held self.now.at direction name }
    {
        self.tags.of(direction, name) > 0
    }

    // Whether the packet in some hand is.
    fn is_in_hand(&self, direction: Direction, name: Name) -> bool
        ensures { result ≡ any_in_hand self.now.at direction name }
    {
        self.hand_has(direction, name, Lane::S1)
            || self.hand_has(direction, name, Lane::S2)
            || self.hand_has(direction, name, Lane::G1)
            || self.hand_has(direction, name, Lane::G2)
    }

    // Whether the packet in the lane's hand is.
    fn hand_has(&self, direction: Direction, name: Name, lane: Lane) -> bool
        ensures { result ≡ hand_has self.now.at direction name lane }
    {
        let Some(n) = self.hands.of(lane) else {
            return false;
        };
        match self.packets.head(n) {
            Some(head) => head.direction == direction && head.tag == Some(name),
            None => false,
        }
    }

    // Makes the place of a transaction, if there is one. The only error is out of memory, which comes
    // only if it has none.
    fn place(&mut self, direction: Direction, tag: Option<Name>) -> Result<(), AllocError>
        ensures place { OnOk result (IfSome tag (HasPlace self.new.places direction)) }
        ensures there { IfSome tag (HasPlace self.old.places direction) → IsOk result }
        ensures same { self.new.at ≡ self.old.at }
        ensures spare { self.new.spare ≡ self.old.spare }
        ensures places { KeepsPlaces self.old.places self.new.places }
    {
        match tag {
            Some(name) => self.tags.make_place(direction, name),
            None => Ok(()),
        }
    }

    // Puts a packet of which the transaction, if there is one, has its place.
    fn put_placed(
        &mut self,
        direction: Direction,
        tag: Option<Name>,
        octets: Octets,
    ) -> Result<u64, PutError>
        requires { IfSome tag (HasPlace self.old.places direction) }
        ensures number { IfOk result (λ n. n ≡ length self.old.at.packets) }
        ensures ok { OnOk result (self.new.at ≡ after_put self.old.at direction tag octets) }
        ensures room { 0 < self.old.spare → IsOk result }
        ensures spare { self.old.spare ≤ self.new.spare + 1 }
        ensures places { KeepsPlaces self.old.places self.new.places }
        ensures err { OnErr result (self.new.at ≡ self.old.at) }
        ensures memory { IfErr result (λ e. (e.fault ≡ LinkFault.Memory) × (e.octets ≡ octets)) }
    {
        let number = self.packets.len() as u64;
        let packet = LinkPacket {
            direction,
            tag,
            octets,
            held: true,
        };
        match self.packets.push(packet) {
            Ok(()) => {
                self.tags.add(direction, tag);
                Ok(number)
            }
            Err(octets) => Err(PutError {
                fault: LinkFault::Memory,
                octets,
            }),
        }
    }

    // Whether the link holds the packet numbered `n`, and it goes in this direction.
    fn is_held_for(&self, direction: Direction, n: u64) -> bool
        ensures { result ≡ is_held_for self.now.at direction n }
    {
        match self.packets.head(n) {
            Some(head) => head.held && head.direction == direction,
            None => false,
        }
    }
}
