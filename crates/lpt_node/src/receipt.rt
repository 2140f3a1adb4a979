//! What a receiver makes of a part.

use lpt_packet::Octets;
use lpt_part::Reason;

/// What a receiver makes of a part.
#[derive(Drop)]
pub(crate) enum Receipt {
    /// The reception of its transaction has ended.
    Closed,
    /// It was added.
    Kept,
    /// It had been kept before.
    Again,
    /// As many receptions are open as the limit, and none of its transaction.
    NoRoom,
    /// With it the message is whole.
    Whole(Octets),
    /// It broke the reception off, for this reason. The spacecraft has a report of it to send.
    Conflict(Reason, Option<Octets>),
}
