//! Why a turn or a run of threads ends before its time.

ghost use Rattle.std.specs.Prelude.{◌≡◌};
ghost use Rattle.lpt_share.specs.FaultNames.{code_of, name_of};
ghost use Rattle.lpt_share.specs.declared.fault.ShareFault.TheVariants.{Memory};

use std::alloc::AllocError;
use thiserror::Error;

/// Why a turn or a run of threads ended before its time.
#[derive(Clone, Copy, Debug, PartialEq, Eq, Error)]
pub enum ShareFault {
    /// The journal was shorter than a seat had seen it, or it and the logs don't agree, or
    /// something was left undone.
    #[error("the journal and the logs don't agree")]
    Torn,
    /// Out of memory.
    #[error("out of memory")]
    Memory,
    /// No thread could be started.
    #[error("no thread could be started")]
    NoThread,
}

impl ShareFault {
    /// The fault's number, 61 to 63.
    pub fn code(self) -> u16
        ensures { result ≡ code_of self }
    {
        match self {
            ShareFault::Torn => 61,
            ShareFault::Memory => 62,
            ShareFault::NoThread => 63,
        }
    }

    /// The fault's name, as it is printed.
    pub fn name(self) -> &'static str
        ensures { result.now ≡ name_of self }
    {
        match self {
            ShareFault::Torn => "Torn",
            ShareFault::Memory => "Memory",
            ShareFault::NoThread => "NoThread",
        }
    }
}

impl From<AllocError> for ShareFault {
    ghost from_gives = { λ _ fault. fault ≡ Memory };

    fn from(_: AllocError) -> ShareFault {
        ShareFault::Memory
    }
}
