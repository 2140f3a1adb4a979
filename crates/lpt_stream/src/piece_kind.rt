//! What a piece of a stream is.

/// What octets of a stream are.
#[derive(Clone, Copy, Debug, PartialEq, Eq)]
pub enum PieceKind {
    /// A packet. An idle one is found in step alone, right behind what isn't `Stray`; and so is one
    /// that has a right checksum, but no secondary header, or is a segment.
    Whole,
    /// No packet, but as many octets as a header says, with a packet behind them or nothing. No
    /// packet inside of them ends where they end.
    Damaged,
    /// An octet with which none of these begins.
    Stray,
}
