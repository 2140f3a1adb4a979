//! Which packets of a message are wanted.

ghost use Rattle.std.specs.Prelude.{◌≤◌};

use crate::Writing;

/// Which packets of a message are wanted, and how they are written.
#[derive(Clone, Copy)]
pub struct Wanted<'a> {
    /// How they are written.
    pub writing: Writing<'a>,
    /// The transaction identifier.
    pub id: u32,
    /// A list of the message's parts: `1-` for all of them.
    pub parts: &'a [u8],
    /// The sequence count of the first packet, 0 to 16,383.
    pub first: u16,
    /// Whether a message that has no more octets than a part goes as it is.
    pub whole: bool,
    ghost counts: { first ≤ 16383 },
}
