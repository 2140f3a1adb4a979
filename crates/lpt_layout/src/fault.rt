//! Why nothing was written.

use thiserror::Error;

/// Why a message or a part wasn't written.
#[derive(Clone, Copy, Debug, PartialEq, Eq, Error)]
pub enum LayoutFault {
    /// A field is out of its range, or of another width than the layout has it.
    #[error("a field doesn't fit the layout")]
    Unfit,
    /// The packet would have more than 65,542 octets.
    #[error("a packet has no more than 65542 octets")]
    TooLong,
    /// Memory ran out.
    #[error("out of memory")]
    Memory,
}
