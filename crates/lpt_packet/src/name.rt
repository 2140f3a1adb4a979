//! What names a transaction within a direction.

/// The name of a transaction within a direction. Names stand in the order of their sources, and those
/// of one source in that of their identifiers.
#[derive(Clone, Copy, Debug, PartialEq, Eq, PartialOrd, Ord)]
pub struct Name {
    /// The source ID of telecommands up, the destination ID of telemetry down.
    pub source: u16,
    /// The identifier of the transaction.
    pub id: u16,
}
