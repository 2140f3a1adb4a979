//! Why a configuration is refused.

ghost use Rattle.std.specs.Prelude.{◌≡◌};
ghost use Rattle.lpt_events.specs.ConfigFaultNames.{code_of, name_of};

use thiserror::Error;

/// The first value that is out of its range, in this order; out of memory is last.
#[derive(Clone, Copy, Debug, PartialEq, Eq, Error)]
pub enum ConfigFault {
    /// The APID isn't 0 to 2046.
    #[error("the APID isn't 0 to 2046")]
    Apid,
    /// The part size isn't 4 to 1024 octets.
    #[error("the part size isn't 4 to 1024 octets")]
    PartSize,
    /// The timeout isn't 1 to 65,535 ticks.
    #[error("the timeout isn't 1 to 65,535 ticks")]
    Timeout,
    /// The limit of receptions isn't 1 to 64.
    #[error("the limit of receptions isn't 1 to 64")]
    Receptions,
    /// The limit of outgoing transactions isn't 1 to 64.
    #[error("the limit of outgoing transactions isn't 1 to 64")]
    Outgoing,
    /// Out of memory.
    #[error("out of memory")]
    Memory,
}

impl ConfigFault {
    /// The fault's number, 71 to 76.
    pub fn code(self) -> u16
        ensures { result ≡ code_of self }
    {
        match self {
            ConfigFault::Apid => 71,
            ConfigFault::PartSize => 72,
            ConfigFault::Timeout => 73,
            ConfigFault::Receptions => 74,
            ConfigFault::Outgoing => 75,
            ConfigFault::Memory => 76,
        }
    }

    /// The fault's name, as it is printed.
    pub fn name(self) -> &'static str
        ensures { result.now ≡ name_of self }
    {
        match self {
            ConfigFault::Apid => "Apid",
            ConfigFault::PartSize => "PartSize",
            ConfigFault::Timeout => "Timeout",
            ConfigFault::Receptions => "Receptions",
            ConfigFault::Outgoing => "Outgoing",
            ConfigFault::Memory => "Memory",
        }
    }
}
