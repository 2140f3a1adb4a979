//! Why what is asked of a memory can't be cut into requests.

ghost use Rattle.std.specs.Prelude.{◌≡◌};
ghost use Rattle.lpt_requests.specs.declared.cut_fault.CutFault.TheVariants.{Memory};

use std::alloc::AllocError;
use thiserror::Error;

/// Why what is asked of a memory can't be cut into requests.
#[derive(Clone, Copy, Debug, PartialEq, Eq, Error)]
pub enum CutFault {
    /// Nothing is asked, or an area has no octets.
    #[error("an area has at least one octet")]
    Empty,
    /// An area doesn't end within the addresses that there are.
    #[error("an area ends after the last address, 4294967295")]
    PastEnd,
    /// Out of memory.
    #[error("out of memory")]
    Memory,
}

impl From<AllocError> for CutFault {
    ghost from_gives = { λ _ fault. fault ≡ Memory };

    fn from(_: AllocError) -> CutFault {
        CutFault::Memory
    }
}
