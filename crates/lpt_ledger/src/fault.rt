//! Why a ledger refuses a change.

ghost use Rattle.std.specs.Prelude.{◌≡◌};
ghost use Rattle.lpt_ledger.specs.FaultNames.{code_of, name_of};

use thiserror::Error;

/// Why a name's state can't be changed as asked.
#[derive(Clone, Copy, Debug, PartialEq, Eq, Error)]
pub enum LedgerFault {
    /// The name is to be taken and isn't free.
    #[error("the identifier is in use")]
    InUse,
    /// The name is to be retired and is open.
    #[error("the identifier is still open")]
    StillOpen,
    /// The name is to be closed and isn't open, or to be retired and is free.
    #[error("the identifier isn't open")]
    NotOpen,
    /// There is no memory for the name's place.
    #[error("out of memory")]
    Memory,
}

impl LedgerFault {
    /// The fault's number: 31 to 33, and 38 when out of memory.
    pub fn code(self) -> u16
        ensures { result ≡ code_of self }
    {
        match self {
            LedgerFault::InUse => 31,
            LedgerFault::StillOpen => 32,
            LedgerFault::NotOpen => 33,
            LedgerFault::Memory => 38,
        }
    }

    /// The fault's name, as it is printed.
    pub fn name(self) -> &'static str
        ensures { result.now ≡ name_of self }
    {
        match self {
            LedgerFault::InUse => "InUse",
            LedgerFault::StillOpen => "StillOpen",
            LedgerFault::NotOpen => "NotOpen",
            LedgerFault::Memory => "Memory",
        }
    }
}
