//! Why memories can't be made, or a load can't be written.

ghost use Rattle.std.specs.Prelude.{◌≡◌};
ghost use Rattle.lpt_memory.specs.FaultNames.{code_of, name_of};

use thiserror::Error;

/// Why memories can't be made, or a load can't be written.
///
/// `Memories::new` gives `BadMemories`. Writing a load gives `TooLong`, `BadArea`, tested in this
/// order, and otherwise `Memory`.
#[derive(Clone, Copy, Debug, PartialEq, Eq, Error)]
pub enum MemoryFault {
    /// Not 1 to 16 memories with distinct identifiers, of 1 to 1,048,576 octets each.
    #[error("not 1 to 16 distinct memories of 1 to 1,048,576 octets")]
    BadMemories,
    /// The load's packet would have more than 65,542 octets.
    #[error("the load's packet would have more than 65,542 octets")]
    TooLong,
    /// A load of no area, of more than 255, or with an empty one.
    #[error("no area, more than 255, or an empty one")]
    BadArea,
    /// Memory ran out.
    #[error("out of memory")]
    Memory,
}

impl MemoryFault {
    /// The fault's number: 25, 27, 28 or 29.
    pub fn code(self) -> u16
        ensures { result ≡ code_of self }
    {
        match self {
            MemoryFault::BadMemories => 25,
            MemoryFault::TooLong => 27,
            MemoryFault::BadArea => 28,
            MemoryFault::Memory => 29,
        }
    }

    /// The fault's name, as it is printed.
    pub fn name(self) -> &'static str
        ensures { result.now ≡ name_of self }
    {
        match self {
            MemoryFault::BadMemories => "BadMemories",
            MemoryFault::TooLong => "TooLong",
            MemoryFault::BadArea => "BadArea",
            MemoryFault::Memory => "Memory",
        }
    }
}
