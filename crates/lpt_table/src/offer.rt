//! What a table makes of a part.

use lpt_reception::{Broken, Whole};

/// What a table makes of a part that is offered to it.
///
/// A reception that comes out can't be let go, so this can't either.
pub enum Offer {
    /// The part was kept, and parts are still missing. The last tick is now.
    Kept,
    /// The part was kept before. The last tick is now.
    Again,
    /// With the part all parts are there. The reception is out of the table.
    Whole(Whole),
    /// The part contradicts those that were kept or, in strict mode, is neither one of them nor the
    /// next one. The reception is out of the table.
    Conflict(Broken),
    /// In strict mode: no reception of this name is open, and the part isn't the first one. Nothing
    /// has changed.
    Gap,
    /// No reception of this name is open, and as many are open as the limit. Nothing has changed.
    NoRoom,
    /// There was no memory for the part. Nothing has changed.
    Memory,
}
