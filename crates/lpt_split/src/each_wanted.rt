//! What is wanted of the messages of a stream.

ghost use Rattle.std.specs.Prelude.{◌≤◌};

use crate::{Pick, Writing};

/// Which packets of the messages of a stream are wanted, and how they are written.
#[derive(Clone, Copy)]
pub struct EachWanted<'a> {
    /// How they are written.
    pub writing: Writing<'a>,
    /// The identifier of the first; the others have those behind it.
    pub id: u32,
    /// The parts that are wanted; without any, all parts of all messages are.
    pub picks: &'a [Pick<'a>],
    /// The sequence count of the first packet, 0 to 16,383.
    pub first: u16,
    ghost counts: { first ≤ 16383 },
}
