//! A part of a large message, as it is read and written.

ghost use Rattle.std.specs.Prelude.{◌≡◌, ◌↔◌, ◌≤◌, length, IsSome, IfSome};
ghost use Rattle.lpt_packet.specs.Numbers.{IsOctets};
ghost use Rattle.lpt_part.specs.Splitting.{IsPartSize};
ghost use Rattle.lpt_part.specs.PartRanges.{PartFits};

use crate::fitting::{length_fits, number_fits};
use crate::{Kind, TransactionId};

/// A part of a large message. Its octets are borrowed, from the message or from the body that it
/// was read from.
#[derive(Clone, Copy, Debug)]
pub struct Part<'a> {
    /// The transaction identifier, 0 to 65,535.
    pub id: TransactionId,
    /// The part sequence number, counted from 1.
    pub number: u16,
    /// First, intermediate or last.
    pub kind: Kind,
    /// The part's octets: as many as the part size, or, in a last part, 1 to as many.
    pub octets: &'a [u8],
    /// The part size in octets, 4 to 1024, by which the message was split.
    pub p: u32,
    ghost part_size: { IsPartSize p },
    ghost fits: { PartFits kind number (length octets.now) p },
    ghost are_octets: { IsOctets octets.now },
}

impl<'a> Part<'a> {
    /// A part of these fields, for parts of `p` octets, or `None` if there is no such part:
    /// the number is 0, a first part's number isn't 1, another's is 1, or `octets` is too short
    /// or too long for a part of this kind and number.
    pub fn new(
        id: TransactionId,
        number: u16,
        kind: Kind,
        octets: &'a [u8],
        p: u32,
    ) -> Option<Part<'a>>
        requires { IsPartSize p }
        ensures fits { IsSome result ↔ PartFits kind number (length octets.now) p }
        ensures fields { IfSome result (λ t. (t.id ≡ id) × (t.number ≡ number) × (t.kind ≡ kind)
            × (t.octets.now ≡ octets.now) × (t.p ≡ p)) }
    {
        if !number_fits(kind, number) || !length_fits(kind, number, octets.len(), p) {
            return None;
        }
        Some(Part {
            id,
            number,
            kind,
            octets,
            p,
        })
    }
}
