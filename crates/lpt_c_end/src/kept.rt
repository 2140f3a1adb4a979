//! Where an end's memories are.

ghost use Rattle.std.specs.Prelude.{◌≡◌, None, IfOk, IfErr, Some};
ghost use Rattle.lpt_c_end.specs.Codes.{IsAnswer};
ghost use Rattle.lpt_c_end.specs.Kept.{memories_refusal, sizes_in};

use crate::codes::{MEMORY, NO_JOB};
use lpt_memory::{Memories, Shape};

/// Where an end's memories are.
#[derive(Drop)]
pub(crate) enum Kept {
    /// Nowhere: ground has none.
    Nowhere,
    /// In the end.
    Here(Memories),
    /// With the caller: the end knows their identifiers and sizes.
    Elsewhere(Shape),
}

impl Kept {
    // The identifiers and sizes of the memories, or the number of the fault.
    pub(crate) fn shape(&self) -> Result<Shape, u32>
        ensures ok { IfOk result (λ s. sizes_in self.now ≡ Some s) }
        ensures err { IfErr result (λ code.
            ¬ (code ≡ 0) × IsAnswer (memories_refusal self.now None) code) }
    {
        let shape = match self {
            Kept::Nowhere => return Err(NO_JOB),
            Kept::Here(memories) => memories.shape(),
            Kept::Elsewhere(shape) => shape.copy(),
        };
        match shape {
            Ok(shape) => Ok(shape),
            Err(_) => Err(MEMORY),
        }
    }
}
