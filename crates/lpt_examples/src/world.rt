//! Calling `lpt_world`: a message on its way up, and what is promised of those that came.

ghost use Rattle.std.specs.Prelude.{◌≡◌, ◌≤◌, ℕ, true, length, slice_get, is_some, Some, None, IfOk, IfErr, IfSome, OnErr};
ghost use Rattle.std.specs.Option.{option_copied};
ghost use Rattle.lpt_packet.specs.declared.direction.Direction.TheVariants.{Up};
ghost use Rattle.lpt_events.specs.declared.entry.Opening.{Opening};
ghost use Rattle.lpt_events.specs.declared.event.Event.TheVariants.{Open};
ghost use Rattle.lpt_journal.specs.Headline.{before, IsLastOpened, WasAsked};
ghost use Rattle.lpt_journal.specs.Releases.{releases};
ghost use Rattle.lpt_journal.specs.Senders.{current};
ghost use Rattle.lpt_journal.specs.Whole.{came, WasReleased, WasAborted};
ghost use Rattle.lpt_part.specs.Splitting.{part_count};
ghost use Rattle.lpt_world.specs.Worlds.{Promised, history, refusal_at, RefusedBy};

use lpt_events::{Answer, Event, Release, StepFault};
use lpt_packet::{Direction, Name, Octets};
use lpt_world::World;

/// The seat in whose name this caller asks.
const SEAT: u8 = 0;

/// Hands a message to ground's sender, and says in how many parts it goes.
///
/// Errors: the first reason, and the world is as it was. The message is dropped then.
pub fn open_up(world: &mut World, name: Name, message: Octets) -> Result<u16, StepFault>
    ensures possible { IfOk result (λ n. refusal_at world.old 0 (Open Up name message) ≡ None) }
    ensures refused { IfErr result (λ f. RefusedBy (refusal_at world.old 0 (Open Up name message)) f) }
    ensures unchanged { OnErr result (world.new ≡ world.old) }
    ensures promised { Promised world.new }
{
    match world.step(SEAT, Event::Open(Direction::Up, name, message)) {
        Err(refused) => Err(refused.fault),
        Ok(reply) => match reply.answer {
            Answer::Opened(parts) => Ok(parts),
            _ => unreachable!(),
        },
    }
}

/// The message that was released as the one of this number, from 0.
///
/// A large one is byte for byte that which the other node opened last under its name; a plain
/// request is the packet of one that ground had asked for.
pub fn release(world: &World, number: usize) -> Option<&Release>
    ensures found { option_copied result
        ≡ slice_get (releases world.now.config (history world.now)) number }
    ensures as_opened { IfSome result (λ r. is_some r.now.of ≡ true
        → IsLastOpened (history world.now) r.now) }
    ensures as_asked { IfSome result (λ r. r.now.of ≡ None
        → WasAsked world.now.config (before r.now.place (history world.now)) r.now.message) }
{
    world.released().get(number)
}

/// All that was released. The message that was opened last under a name is among it, if each of its
/// parts was delivered since then and since the receiver's last restart, while there was room,
/// unless its reception expired or was broken off.
pub fn releases_of(world: &World) -> &[Release]
    ensures all { result.now ≡ releases world.now.config (history world.now) }
    ensures whole { (d : Direction) (name : Name) (o : Opening)
        → current (history world.now) d name ≡ Some o
        → ((k : ℕ) → 1 ≤ k → k ≤ part_count (length o.message) world.now.config.part_size
        → came world.now.config (history world.now) d name k ≡ true)
        → ¬ (WasAborted (history world.now) o)
        → WasReleased world.now.config (history world.now) o }
{
    world.released()
}
