//! What lines are told of.

/// What a line is told of, in the order of lines.
#[derive(Clone, Copy)]
pub enum Topic {
    /// Packets of another APID.
    OtherApid,
    /// Packets of the other direction.
    OtherDirection,
    /// Parts of number 0.
    NoNumber,
    /// Parts whose body isn't read.
    Unread,
    /// Parts of another name.
    OtherName,
    /// Packets that carry no part.
    NoPart,
    /// Pieces that are no packets, but as long as one.
    Damaged,
    /// Octets with which no packet begins.
    Stray,
}

/// All of them.
pub(crate) const TOPICS: [Topic; 8] = [
    Topic::OtherApid,
    Topic::OtherDirection,
    Topic::NoNumber,
    Topic::Unread,
    Topic::OtherName,
    Topic::NoPart,
    Topic::Damaged,
    Topic::Stray,
];
