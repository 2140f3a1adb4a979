//! What a reader has found in octets.

/// The boot and the clock of a state, and the octets of its runs, which lie in those that were
/// read.
#[derive(Clone, Copy)]
pub(crate) struct Found<'a> {
    /// The number of the boot.
    pub(crate) boot: u64,
    /// The clock, in ticks.
    pub(crate) clock: u32,
    /// The runs of names of outgoing transactions.
    pub(crate) sent: &'a [u8],
    /// The runs of names of incoming transactions.
    pub(crate) received: &'a [u8],
}
