//! What names a transaction of a layout within a direction.

/// The name of a transaction within a direction. Names stand in the order of their users, and those
/// of one user in that of their identifiers.
#[derive(Clone, Copy, PartialEq, Eq, PartialOrd, Ord)]
pub struct Name {
    /// The source ID of telecommands up, the destination ID of telemetry down; 0 if the layout
    /// has none.
    pub user: u32,
    /// The transaction identifier.
    pub id: u32,
}
