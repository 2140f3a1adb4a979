//! The name under which a file is written first.

ghost use Rattle.std.specs.Prelude.{◌≡◌, ◌≢◌, IfOk, string_bytes};
ghost use Rattle.lpt_io.specs.Disks.{part_path};

use std::alloc::{AllocError, Global};

/// The path at which a file is written first that gets this one. The only error is out of memory.
pub fn part_of(alloc: Global, path: &str) -> Result<String, AllocError>
    ensures its { IfOk result (λ t. string_bytes t ≡ part_path path.now) }
    ensures beside { IfOk result (λ t. string_bytes t ≢ path.now) }
{
    format!(in alloc; "{path}.part")
}
