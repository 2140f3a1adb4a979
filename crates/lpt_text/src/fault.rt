//! Why work on a stream ends before it is done.

ghost use Rattle.std.specs.Prelude.{◌≡◌};
ghost use Rattle.lpt_text.specs.declared.fault.StreamFault.TheVariants.{Memory};

use std::alloc::AllocError;
use thiserror::Error;

/// The fault by which work on a stream ends.
#[derive(Clone, Copy, Debug, PartialEq, Eq, Error)]
pub enum StreamFault {
    /// A read failed, or more octets came than may come.
    #[error("the input can't be read")]
    Read,
    /// A write failed or took nothing.
    #[error("the output can't be written")]
    Write,
    /// Out of memory.
    #[error("out of memory")]
    Memory,
}

impl From<AllocError> for StreamFault {
    ghost from_gives = { λ _ fault. fault ≡ Memory };

    fn from(_: AllocError) -> StreamFault {
        StreamFault::Memory
    }
}
