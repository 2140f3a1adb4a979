//! Why octets are no state of an end.

use thiserror::Error;

/// The first fault of octets that are read as a state, in the order in which they are looked for.
#[derive(Clone, Copy, Debug, PartialEq, Eq, Error)]
pub enum StateFault {
    /// They are fewer than the shortest state has.
    #[error("the state is cut short")]
    Short,
    /// They don't begin as a state does.
    #[error("this is no state of an end")]
    Tag,
    /// They are of another version than 2.
    #[error("the state is of another version")]
    Version,
    /// They aren't as many as the state says.
    #[error("the state is cut, or has octets after it")]
    Length,
    /// They are the state of the other side.
    #[error("the state is of the other side")]
    Side,
    /// They are the state of an end of another APID, source, part size or mode.
    #[error("the state is of another configuration")]
    Config,
    /// The checksum isn't that of the octets before it.
    #[error("the state's checksum is wrong")]
    Checksum,
    /// No boot is left: the state's is the greatest number of 64 bits.
    #[error("no boot follows the state's")]
    Boot,
    /// The runs of names don't ascend.
    #[error("the state's names are out of order")]
    Order,
    /// There is no memory for the end.
    #[error("out of memory")]
    Memory,
}
