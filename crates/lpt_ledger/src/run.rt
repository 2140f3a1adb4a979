//! Names of one source that follow one another.

/// The names of one source from an identifier to another, both among them.
#[derive(Clone, Copy, Debug, PartialEq, Eq)]
pub struct NameRun {
    /// The source of the names.
    pub source: u16,
    /// The least identifier.
    pub first: u16,
    /// The greatest identifier.
    pub last: u16,
}
