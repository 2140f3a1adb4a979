//! Loads that a script asks to be opened.

ghost use Rattle.std.specs.Prelude.{◌≡◌, ◌≢◌, IsErrOf, Err, true};
ghost use Rattle.lpt_text.specs.Streams.{WriteEnds};
ghost use Rattle.lpt_script.specs.Ends.{LineEnds};
ghost use Rattle.lpt_script.specs.Scripts.{event_stepped};
ghost use Rattle.lpt_script_words.specs.Loads.{load_packet};

use crate::command::run_event;
use lpt_events::{Event, StepFault};
use lpt_packet::Direction;
use lpt_script_words::Load;
use lpt_text::{Sink, StreamFault};
use lpt_world::World;
use std::alloc::Global;

/// Opens the packet of a load upwards, with the configured APID and the source of its name, prints
/// what came of it, and answers why it was refused, if it was.
pub(crate) fn run_load<K: Sink>(
    alloc: Global,
    text: &mut String,
    world: &mut World,
    load: &Load,
    out: &mut K,
) -> Result<Option<StepFault>, StreamFault>
    ensures ends { LineEnds (event_stepped world.old (Event.Open Direction.Up load.now.name
        (load_packet world.old.config.apid load.now)))
        result world.new (K.contents out.old) (K.contents out.new) }
    ensures writer { WriteEnds result (K.failed out.old) (K.failed out.new) }
{
    let config = world.config();
    match load.packet(alloc, config.apid) {
        Ok(packet) => run_event(
            text,
            world,
            Event::Open(Direction::Up, load.name(), packet),
            out,
        ),
        Err(_) => Err(StreamFault::Memory),
    }
}
