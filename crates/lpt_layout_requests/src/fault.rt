//! Why a request isn't written as a layout has it.

ghost use Rattle.std.specs.Prelude.{◌≡◌};
ghost use Rattle.lpt_layout_requests.specs.declared.fault.RequestFault.TheVariants.{OfLayout, OfRequest};

use lpt_layout::LayoutFault;
use lpt_memory::MemoryFault;
use thiserror::Error;

/// Why a request wasn't written.
#[derive(Clone, Copy, Debug, PartialEq, Eq, Error)]
pub enum RequestFault {
    /// The fault is the request's own, by whatever layout.
    #[error(transparent)]
    OfRequest(MemoryFault),
    /// The layout has no packet for it.
    #[error(transparent)]
    OfLayout(LayoutFault),
}

impl From<MemoryFault> for RequestFault {
    ghost from_gives = { λ fault why. why ≡ OfRequest fault };

    fn from(fault: MemoryFault) -> RequestFault {
        RequestFault::OfRequest(fault)
    }
}

impl From<LayoutFault> for RequestFault {
    ghost from_gives = { λ fault why. why ≡ OfLayout fault };

    fn from(fault: LayoutFault) -> RequestFault {
        RequestFault::OfLayout(fault)
    }
}
