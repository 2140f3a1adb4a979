//! Which parts are wanted.

use crate::{Name, Reading};

/// Which parts are wanted, and how they are read.
#[derive(Clone, Copy)]
pub struct Wanted {
    /// How they are read.
    pub reading: Reading,
    /// The name of their transaction, if one alone is wanted.
    pub name: Option<Name>,
}
