//! The packets of a link, whose octets lie one behind the other.

ghost use Rattle.std.specs.Prelude.{◌≡◌, ◌+◌, ◌-◌, ◌<◌, ◌≤◌, ◌^◌, ◌↔◌, ◌∷◌, ◌++◌, [], length, slice_get, vec_len, IfOk, IfErr, OnOk, OnErr, IsOk, IsSome};
ghost use Rattle.std.specs.Option.{option_copied, option_map};
ghost use Rattle.std.specs.Vec.{vec_capacity};
ghost use Rattle.lpt_link.specs.Links.{with_lost};
ghost use Rattle.lpt_link.specs.Packets.{head_of};
ghost use Rattle.lpt_link.specs.PacketsInside.{IsThere, Keeps, octets_of};

use crate::packet::{Head, LinkPacket};
use lpt_packet::Octets;
use std::alloc::{AllocError, Global};
use std::marker::Model;

/// For how many packets there is room at first.
const FIRST_ROOM: usize = 16;

/// The most octets of a packet that lie among those of the others.
const LONGEST_AMONG: usize = 65_535;

/// Every packet that was put, at the place of its number.
#[derive(Drop)]
pub(crate) struct Packets {
    kept: Vec<Kept>,
    // The octets of one packet behind those of the one before.
    octets: Vec<u8>,
    // Those that found no room there: the octets of a packet each.
    apart: Vec<Octets>,
}

/// What is kept of a packet.
#[derive(Clone, Copy)]
struct Kept {
    head: Head,
    place: Place,
}

/// Where the octets of a packet are.
#[derive(Clone, Copy)]
struct Place {
    // Where they begin among those of all, or which of those apart they are.
    at: usize,
    // How many they are, if they don't lie apart.
    len: u32,
    is_apart: bool,
}

impl Model for Packets {
    ghost use Rattle.std.specs.Prelude.{◌-◌, min};
    ghost use Rattle.std.specs.List.{All};
    ghost use Rattle.std.specs.Vec.{vec_len, vec_capacity};
    ghost use Rattle.lpt_link.specs.Packets.{PacketsView};
    ghost use Rattle.lpt_link.specs.PacketsInside.{IsThere, packets_of};

    ghost Value = { PacketsView };

    ghost view = { λ p. record {
      items = packets_of p.octets.items p.apart.items p.kept.items;
      spare = min (vec_capacity p.kept - vec_len p.kept) (vec_capacity p.apart - vec_len p.apart);
    } };

    ghost invariant = { λ p. All (λ k. IsThere p.octets.items p.apart.items k.place) p.kept.items };
}

impl Packets {
    // No packets. The only error is out of memory.
    pub(crate) fn new(alloc: Global) -> Result<Packets, AllocError>
        ensures { IfOk result (λ p. p.items ≡ []) }
    {
        Ok(Packets {
            kept: Vec::with_capacity(alloc, FIRST_ROOM)?,
            octets: Vec::new(alloc),
            apart: Vec::new(alloc),
        })
    }

    // How many they are.
    pub(crate) fn len(&self) -> usize
        ensures value { result ≡ length self.now.items }
        ensures small { length self.now.items < 2 ^ 63 }
    {
        self.kept.len()
    }

    // What the packet numbered `n` has besides its octets.
    pub(crate) fn head(&self, n: u64) -> Option<Head>
        ensures { result ≡ option_map head_of (slice_get self.now.items n) }
    {
        match self.kept.get(n as usize) {
            Some(kept) => Some(kept.head),
            None => None,
        }
    }

    // The octets of the packet numbered `n`.
    pub(crate) fn octets(&self, n: u64) -> Option<&[u8]>
        ensures value { option_copied result
            ≡ option_map (λ p. p.octets) (slice_get self.now.items n) }
        ensures some { IsSome result ↔ (n < length self.now.items) }
    {
        match self.kept.get(n as usize) {
            Some(kept) => Some(octets_in(
                self.octets.as_slice(),
                self.apart.as_slice(),
                kept.place,
            )),
            None => None,
        }
    }

    // Makes room for `n` packets more. The only error is out of memory.
    #[inline(always)]
    pub(crate) fn reserve(&mut self, n: usize) -> Result<(), AllocError>
        ensures room { OnOk result (n ≤ self.new.spare) }
        ensures items { self.new.items ≡ self.old.items }
        ensures spare { self.old.spare ≤ self.new.spare }
    {
        self.kept.reserve(n)?;
        self.apart.reserve(n)
    }

    // Adds a packet. The only error is out of memory, with its octets, which never comes if there
    // is room.
    pub(crate) fn push(&mut self, packet: LinkPacket) -> Result<(), Octets>
        ensures ok { OnOk result (self.new.items ≡ self.old.items ++ packet ∷ []) }
        ensures room { 0 < self.old.spare → IsOk result }
        ensures spare { self.old.spare ≤ self.new.spare + 1 }
        ensures err { OnErr result (self.new.items ≡ self.old.items) }
        ensures back { IfErr result (λ octets. octets ≡ packet.octets) }
    {
        let LinkPacket {
            direction,
            tag,
            octets,
            held,
        } = packet;
        if self.kept.reserve(1).is_err() {
            return Err(octets);
        }
        let place = put_octets(&mut self.octets, &mut self.apart, octets)?;
        let head = Head {
            direction,
            held,
            tag,
        };
        self.kept.push_reserved(Kept { head, place });
        Ok(())
    }

    // Sets the mark of the packet numbered `n`, which there is, so that it is held no more.
    pub(crate) fn lose(&mut self, n: u64)
        requires { n < length self.old.items }
        ensures items { self.new.items ≡ with_lost self.old.items n }
        ensures spare { self.new.spare ≡ self.old.spare }
    {
        self.kept[n as usize].head.held = false;
    }
}

// The octets at a place.
fn octets_in<'a>(octets: &'a [u8], apart: &'a [Octets], place: Place) -> &'a [u8]
    requires { IsThere octets.now apart.now place }
    ensures { result.now ≡ octets_of octets.now apart.now place }
{
    if place.is_apart {
        apart[place.at].as_slice()
    } else {
        &octets[place.at..place.at + place.len as usize]
    }
}

// Puts the octets of a packet behind those of the others, or apart if there is no room. The only
// error is out of memory, with the octets; it never comes if there is room apart.
fn put_octets(all: &mut Vec<u8>, apart: &mut Vec<Octets>, octets: Octets) -> Result<Place, Octets>
    ensures there { IfOk result (IsThere all.new.items apart.new.items) }
    ensures reads { IfOk result (λ p. octets_of all.new.items apart.new.items p ≡ octets) }
    ensures keeps { Keeps all.old.items apart.old.items all.new.items apart.new.items }
    ensures room { vec_len apart.old < vec_capacity apart.old → IsOk result }
    ensures spare { vec_capacity apart.old - vec_len apart.old
        ≤ vec_capacity apart.new - vec_len apart.new + 1 }
    ensures back { IfErr result (λ o. o ≡ octets) }
{
    let at = all.len();
    let len = octets.as_slice().len();
    if len <= LONGEST_AMONG && all.extend_from_slice(octets.as_slice()).is_ok() {
        return Ok(Place {
            at,
            len: len as u32,
            is_apart: false,
        });
    }
    let at = apart.len();
    match apart.push(octets) {
        Ok(()) => Ok(Place {
            at,
            len: 0,
            is_apart: true,
        }),
        Err(failed) => Err(failed.value),
    }
}
