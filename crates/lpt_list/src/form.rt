//! The two forms of a list.

/// In which form a list is written.
#[derive(Clone, Copy)]
pub enum Form {
    /// Words, as `lpt decode` has them.
    Text,
    /// An object of JSON on each line, with the standard's names.
    Json,
}
