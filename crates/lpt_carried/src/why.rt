//! Why a piece of a stream is passed over.

use crate::Name;

/// Why a reader of parts passes over a piece of a stream.
#[derive(Clone, Copy)]
pub enum Why {
    /// It doesn't: it is a part that is wanted.
    Taken,
    /// No packet, but as many octets as a header says.
    Damaged,
    /// So many octets with which no packet begins.
    Stray(usize),
    /// A packet of this other APID.
    OtherApid(u16),
    /// A packet of the other direction, as its packet type says.
    OtherDirection,
    /// A part of number 0.
    NoNumber,
    /// A part whose body isn't read for the part size; the part size by which it would be, if it
    /// is a first part and there is one.
    Unread(Option<u32>),
    /// A part of the transaction of this other name.
    OtherName(Name),
    /// A packet, or an idle one, that carries no part.
    NoPart,
}
