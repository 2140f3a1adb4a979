//! The paths of messages.

ghost use Rattle.std.specs.Prelude.{◌≡◌, IfOk, string_bytes};
ghost use Rattle.lpt_layout_each.specs.Filing.{path_text};

use lpt_carried::Name;
use lpt_packet::Direction;
use std::alloc::{AllocError, Global};

/// The path in this folder of a message of this name behind so many of its messages. The only error
/// is out of memory.
pub(crate) fn path_for(
    alloc: Global,
    folder: &str,
    direction: Direction,
    name: Name,
    before: u64,
) -> Result<String, AllocError>
    ensures { IfOk result (λ t. string_bytes t ≡ path_text folder.now direction name before) }
{
    let direction = direction.word();
    let (user, id) = (name.user, name.id);
    format!(in alloc; "{folder}/{direction}-{user}-{id}.{before}")
}
