//! What a part says of its transaction.

/// The transaction identifier that stands in a part and in an abortion report, 0 to 65,535.
pub type TransactionId = u16;
