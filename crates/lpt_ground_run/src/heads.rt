//! What stands in the headers of a pass's requests.

ghost use Rattle.std.specs.Prelude.{◌≤◌};

use lpt_pus::AckFlags;

/// What stands in the headers of a pass's requests.
#[derive(Clone, Copy, Debug, PartialEq, Eq)]
pub struct Heads {
    /// The application process identifier, up to 2,046.
    pub apid: u16,
    /// The pass's own source.
    pub source: u16,
    /// The first sequence count, 0 to 16,383.
    pub count: u16,
    /// The acknowledgement flags.
    pub flags: AckFlags,
    ghost apids: { apid ≤ 2046 },
    ghost counts: { count ≤ 16383 },
}
