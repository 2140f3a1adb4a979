//! A message that goes up in parts, and the names under which it may go.

ghost use Rattle.std.specs.Prelude.{◌<◌, ◌≤◌, length};
ghost use Rattle.lpt_packet.specs.Sizes.{longest_packet};
ghost use Rattle.lpt_part.specs.Splitting.{IsPartSize};

use lpt_packet::Octets;

/// The transaction identifiers of the names under which a message may go, which are free at the
/// spacecraft: so many, from the first on, and after 65,535 from 0.
#[derive(Clone, Copy, Debug, PartialEq, Eq)]
pub struct Names {
    /// The first.
    pub first: u16,
    /// How many they are, up to 65,536.
    pub many: u32,
    ghost some: { many ≤ 65536 },
}

/// A message that goes up in parts: it is longer than one part.
#[derive(Drop)]
pub struct Large {
    /// The application process identifier of the parts' packets, up to 2,046.
    pub apid: u16,
    /// The source of the parts' packets and of the names.
    pub source: u16,
    /// The sequence count of the first packet, 0 to 16,383.
    pub count: u16,
    /// How many octets a part has, 4 to 1,024.
    pub part_size: u32,
    /// The names under which it may go.
    pub names: Names,
    /// The message.
    pub message: Octets,
    ghost apids: { apid ≤ 2046 },
    ghost counts: { count ≤ 16383 },
    ghost sizes: { IsPartSize part_size },
    ghost long: { part_size < length message },
    ghost short: { length message ≤ longest_packet },
}
