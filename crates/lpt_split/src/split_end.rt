//! How a split ends.

/// How the split of a message ends. Unless it was written, nothing was.
#[derive(Clone, Copy)]
pub enum SplitEnd {
    /// The packets were written, or the message as it is. This is the sequence count behind the
    /// last of them.
    Written(u16),
    /// The message has so many octets, no more than a part, so it isn't split.
    Short(usize),
    /// The message has more than 65,542 octets.
    Long,
    /// The message has so many parts, more than 65,535.
    Many(u32),
    /// The part list isn't read as one of a message of so many parts.
    NoSuchPart(u32),
    /// An identifier, a number or a source doesn't fit the layout.
    Unfit,
    /// A part has no room in a packet.
    TooLong,
}
