//! A part of a layout.

use lpt_part::Kind;

/// A part of a large message. Its octets are borrowed, from the message or from the body that it
/// was read from.
#[derive(Clone, Copy)]
pub struct PartAs<'a> {
    /// The transaction identifier.
    pub id: u32,
    /// The part sequence number, counted from 1.
    pub number: u32,
    /// First, intermediate or last.
    pub kind: Kind,
    /// The part's octets: as many as the part size, or, in a last part, 1 to as many.
    pub octets: &'a [u8],
}
