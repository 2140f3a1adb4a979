//! The configuration, read with the tool's faults.

ghost use Rattle.std.specs.Prelude.{◌≡◌, ◌⊎◌, Some, IsSome, IfOk, IfErr, MatchResult, option_and_then};
ghost use Rattle.toml.specs.Errors.{IsBlank};
ghost use Rattle.toml.specs.Parse.{parse_document};
ghost use Rattle.lpt_events.specs.Configs.{IsConfig};
ghost use Rattle.lpt_settings.specs.Settings.{settings_of, default_settings};

use crate::ToolFault;
use lpt_events::{Config, Turns};
use lpt_memory::Memories;
use std::alloc::Global;

/// Reads a configuration and the first memories, as `lpt_settings::read_config` does: a TOML
/// document of the keys, ranges and defaults that lpt_settings lists.
///
/// Errors: `Config` if the text is refused, or the reader of TOML runs out of memory; `Memory` if
/// there is none for the memories of a text that isn't refused for anything else.
pub fn read_config(alloc: Global, text: &str) -> Result<(Config, Memories, Turns), ToolFault>
    // The text is a TOML document, and the settings are what its table means.
    ensures ok { IfOk result (λ s.
        option_and_then settings_of (parse_document text.now) ≡ Some ((s.0, s.2), s.1)) }
    ensures ranges { IfOk result (λ s. IsConfig s.0) }

    // White space and comments alone give the defaults, if there is memory for them.
    ensures blank { IsBlank text.now → MatchResult result
        (λ s. ((s.0, s.2), s.1) ≡ default_settings) (λ e. e ≡ ToolFault.Memory) }

    // All of the text is judged before memory is taken for the memories.
    ensures memory { IfErr result (λ e. e ≡ ToolFault.Memory
        → IsSome (option_and_then settings_of (parse_document text.now))) }

    // No clause says when else it succeeds, since the reader of TOML may want memory.
    ensures fault { IfErr result (λ e. (e ≡ ToolFault.Config) ⊎ (e ≡ ToolFault.Memory)) }
{
    match lpt_settings::read_config(alloc, text) {
        Ok(settings) => Ok(settings),
        Err(fault) => Err(ToolFault::from(fault)),
    }
}
