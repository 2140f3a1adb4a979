//! How a stream is cut into packets.

/// How a stream is cut into packets.
#[derive(Clone, Copy)]
pub enum Cut {
    /// By checksums: a packet is one whose checksum is right, and behind octets that are none the
    /// next one is found.
    Sealed,
    /// By the lengths that headers of version 0 say, and by nothing else: if none begins, that
    /// and all that comes behind is no packet.
    Framed,
    /// By checksums and lengths, neither of which alone is believed, on a link whose longest packet
    /// has so many octets. In step a packet is one whose checksum is right. What else is as long as
    /// its header says is passed over, if lengths lead from there to a packet or to the end. Behind
    /// octets astray a packet begins where packets follow one another for more octets than the
    /// longest has, or up to the end. A longer length isn't believed.
    Resumed(usize),
}
