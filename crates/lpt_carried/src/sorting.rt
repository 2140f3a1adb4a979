//! Why a piece of a stream is none of the parts that are wanted.

ghost use Rattle.std.specs.Prelude.{◌≡◌};
ghost use Rattle.lpt_carried.specs.Carried.{part_carried, cut};
ghost use Rattle.lpt_stream.specs.Pieces.{IsSealedBy};
ghost use Rattle.lpt_stream.specs.declared.piece_kind.PieceKind.TheVariants.{Whole};
ghost use Rattle.lpt_carried.specs.Skipping.{fitting_by, size_shown, sizeless, why_name, why_of, why_skip, why_unsaid};

use crate::{Name, PartFault, PieceKind, PusFault, Reading, Skip, Wanted, Why, carried_in};
use lpt_part::Kind;

impl Wanted {
    /// Why a piece of this kind, of these octets, is passed over; or that it isn't. If its
    /// packets have a checksum, that of a whole one was taken before, and is right.
    pub fn why(&self, kind: PieceKind, octets: &[u8]) -> Why
        requires { IsSealedBy (cut self.now.reading) kind octets.now }
        ensures { result ≡ why_of self.now kind octets.now }
    {
        match kind {
            PieceKind::Damaged => Why::Damaged,
            PieceKind::Stray => Why::Stray(octets.len()),
            PieceKind::Whole => match carried_in(&self.reading, PieceKind::Whole, octets) {
                Ok(part) => self.why_name(part.name()),
                Err(skip) => why_skip(&self.reading, skip, octets),
            },
        }
    }

    // Why a part of this name is passed over.
    fn why_name(&self, name: Name) -> Why
        ensures { result ≡ why_name self.now.name name }
    {
        match self.name {
            Some(wanted) if name != wanted => Why::OtherName(name),
            _ => Why::Taken,
        }
    }
}

// Why a packet is passed over that carries no part for this reason.
fn why_skip(reading: &Reading, skip: Skip, octets: &[u8]) -> Why
    requires { IsSealedBy (cut reading.now) Whole octets.now }
    ensures { result ≡ why_skip skip (fitting_by (part_carried (sizeless reading.now) octets.now)) }
{
    match skip {
        Skip::OtherApid(apid) => Why::OtherApid(apid),
        Skip::NoMessage(fault) => why_unsaid(fault),
        Skip::NoPart(PartFault::Zero) => Why::NoNumber,
        Skip::NoPart(_) => Why::Unread(fitting_in(reading, octets)),
        Skip::Stray(len) => Why::Stray(len),
        Skip::NoPacket(_) | Skip::Idle | Skip::OtherType { .. } => Why::NoPart,
    }
}

// Why a packet is passed over that isn't read as a message of the direction.
fn why_unsaid(fault: PusFault) -> Why
    ensures { result ≡ why_unsaid fault }
{
    match fault {
        PusFault::WrongType => Why::OtherDirection,
        _ => Why::NoPart,
    }
}

// The part size that a packet shows which carries a first part.
fn fitting_in(reading: &Reading, octets: &[u8]) -> Option<u32>
    requires { IsSealedBy (cut reading.now) Whole octets.now }
    ensures { result ≡ fitting_by (part_carried (sizeless reading.now) octets.now) }
{
    let sizeless = Reading {
        direction: reading.direction,
        apid: reading.apid,
        layout: reading.layout,
        parts: reading.parts,
        part_size: None,
    };
    match carried_in(&sizeless, PieceKind::Whole, octets) {
        Ok(carried) => size_shown(carried.part.kind, carried.part.octets.len()),
        Err(_) => None,
    }
}

// The part size that a part of so many octets shows.
fn size_shown(kind: Kind, len: usize) -> Option<u32>
    ensures { result ≡ size_shown kind len }
{
    if kind == Kind::First && (4..=1024).contains(&len) {
        Some(len as u32)
    } else {
        None
    }
}
