//! Scripts without threads, and a packet decoded.

ghost use Rattle.std.specs.Prelude.{◌≡◌, ◌↔◌, ⊤, Bool, Result, IsErrOf, IsOk, IsSome};
ghost use Rattle.lpt_events.specs.Configs.{config_fault};
ghost use Rattle.lpt_script.specs.Ends.{DecodeEnds, ScriptEnds};
ghost use Rattle.lpt_text.specs.Streams.{ReadEnds, WriteEnds};
ghost use Rattle.lpt_text.specs.declared.fault.StreamFault.{StreamFault};
ghost use Rattle.lpt_script.specs.declared.end.ScriptEnd.{ScriptEnd};
ghost use Rattle.lpt_script.specs.declared.fault.ScriptFault.{ScriptFault};
ghost use Rattle.lpt_part.specs.Splitting.{IsPartSize};
ghost use Rattle.lpt_world.specs.Worlds.{new_world};
ghost use Rattle.lpt_tool.specs.Faults.{of_scripts, of_streams, streams_end};

use crate::ToolFault;
use lpt_events::Config;
use lpt_memory::Memories;
use lpt_script::ScriptEnd;
use lpt_text::{Sink, Source};
use std::alloc::Global;

/// Runs a script from a reader, as `lpt_script::run_script` does.
///
/// Errors: those of that function.
pub fn run_script<S: Source, K: Sink>(
    alloc: Global,
    config: Config,
    memories: Memories,
    reader: &mut S,
    out: &mut K,
) -> Result<ScriptEnd, ToolFault>
    ensures ends { (ran : Result ScriptEnd ScriptFault) × (result ≡ of_scripts ran)
        × ScriptEnds (new_world config memories) ran (S.remaining reader.old) (S.remaining reader.new)
        (K.contents out.old) (K.contents out.new) (S.failed reader.new) (K.failed out.new) }
    ensures config { IsErrOf result ToolFault.Config ↔ IsSome (config_fault config) }

    // A fault of a write is reported, and so is one of a read, unless the run ended by another.
    ensures writer { WriteEnds (streams_end result) (K.failed out.old) (K.failed out.new) }
    ensures reader { ReadEnds ⊤ (streams_end result) (S.failed reader.old) (S.failed reader.new) }
    ensures passed { IsOk result → K.flushed out.new ≡ K.contents out.new }
{
    match lpt_script::run_script(alloc, config, memories, reader, out) {
        Ok(end) => Ok(end),
        Err(fault) => Err(ToolFault::from(fault)),
    }
}

/// Writes what octets are as a packet, as `lpt_script::decode` does.
///
/// Errors: those of that function.
pub fn decode<K: Sink>(alloc: Global, octets: &[u8], p: u32, out: &mut K) -> Result<bool, ToolFault>
    requires { IsPartSize p }
    ensures ends { (done : Result Bool StreamFault) × (result ≡ of_streams done)
        × DecodeEnds p octets.now done (K.contents out.old) (K.contents out.new) }
    ensures writer { WriteEnds (streams_end result) (K.failed out.old) (K.failed out.new) }
{
    match lpt_script::decode(alloc, octets, p, out) {
        Ok(faulty) => Ok(faulty),
        Err(fault) => Err(ToolFault::from(fault)),
    }
}
