//! What becomes of a packet on the link.

/// What becomes of a packet.
#[derive(Clone, Copy)]
pub struct Fate {
    /// It isn't written. What else is said here then counts for nothing.
    pub is_lost: bool,
    /// It is written twice.
    pub is_twice: bool,
    /// It is written behind so many of the packets that come after it, or at the stream's end.
    pub later: u16,
    /// How it is changed, if it reads as a packet that isn't idle, and this lies within it.
    pub burst: Option<Burst>,
}

/// Bits that are changed, in two octets that follow one another.
#[derive(Clone, Copy)]
pub struct Burst {
    /// The place of the first of the two octets.
    pub at: usize,
    /// The bits of the first that are changed.
    pub first: u8,
    /// The bits of the second that are changed.
    pub second: u8,
    /// Whether both are octets of the primary header, of which then each may change. If not, the
    /// first octet and the length field stay as they are.
    pub in_header: bool,
}
