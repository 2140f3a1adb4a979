//! What a handle holds.

use lpt_ground::Pass;

/// Ground's end of a pass.
#[derive(Drop)]
pub struct Ground {
    pub(crate) pass: Pass,
}
