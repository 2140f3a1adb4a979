//! What of a stream is taken, and what isn't.

/// What of a stream is taken, and what isn't.
#[derive(Clone, Copy)]
pub struct Passing {
    /// The longest packet has so many octets. A longer length isn't believed, nor awaited.
    pub longest: usize,
    /// Whether what is no packet is passed over; otherwise the stream ends there.
    pub is_on: bool,
}
