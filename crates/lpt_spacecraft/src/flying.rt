//! What the spacecraft's end makes of a packet, and of the tick behind it, as a stream goes on.

ghost use Rattle.std.specs.Prelude.{◌≡◌, ◌∷◌, ◌⊎◌, ◌+◌, ◌<◌, ◌^◌, [], ◌++◌, IfErr, OnOk, Some};
ghost use Rattle.lpt_jobs.specs.Jobs.{jobs_numbered};
ghost use Rattle.lpt_stream.specs.Streams.{all_octets};
ghost use Rattle.lpt_text.specs.Streams.{AppendsPart, WriteEnds};
ghost use Rattle.lpt_spacecraft.specs.Flights.{Came, Ticked, Cleared, came_with, clock_ticks, counted_on, inputs_served, step};
ghost use Rattle.lpt_spacecraft.specs.Serving.{beaten, packet_taken};
ghost use Rattle.lpt_spacecraft.specs.Streams.{flight_of, onboard, plain, Breaks, Flies, IsIdle};

use crate::pace::PaceCourse;
use crate::{Spacecraft, Told};
use lpt_text::{Sink, StreamFault};

// Ticks as often as is due by the clock, takes a packet, and ticks behind it if that is due, and
// writes what they make; adds what there is to tell.
pub(crate) fn serve_one<K: Sink>(
    craft: &mut Spacecraft,
    course: &mut PaceCourse,
    due: u64,
    octets: &[u8],
    told: &mut Vec<Told>,
    out: &mut K,
) -> Result<(), StreamFault>
    requires idle { IsIdle craft.old }
    requires room { jobs_numbered craft.old.node.at.jobs + 1 < 2 ^ 64 }
    requires since { course.old.since + 1 < 2 ^ 64 }
    ensures ok { OnOk result (Flies (inputs_served craft.old.config (flight_of craft.old course.old)
        (clock_ticks due ++ came_with course.old.pace.every course.old.since octets.now))
        craft.new course.new (K.contents out.old) (K.contents out.new)
        (Some told.old.items) (Some told.new.items)) }
    ensures since { OnOk result (course.new.since
        ≡ counted_on course.old.pace.every course.old.since) }
    ensures idle { OnOk result (IsIdle craft.new) }

    ensures pace { course.new.pace ≡ course.old.pace }
    ensures config { craft.new.config ≡ craft.old.config }

    ensures fault { IfErr result (λ e. (e ≡ StreamFault.Write) ⊎ (e ≡ StreamFault.Memory)) }
    ensures writer { WriteEnds result (K.failed out.old) (K.failed out.new) }
    ensures breaks { IfErr result (λ _. Breaks craft.old.memories
        (plain (inputs_served craft.old.config (flight_of craft.old course.old)
        (clock_ticks due ++ came_with course.old.pace.every course.old.since octets.now)))
        craft.new.memories (K.contents out.old) (K.contents out.new)) }
{
    tick_all(craft, course, due, told, out)?;
    take_next(craft, course, octets, told, out)?;
    Ok(())
}

// Ticks so many times, and adds what there is to tell.
pub(crate) fn tick_all<K: Sink>(
    craft: &mut Spacecraft,
    course: &mut PaceCourse,
    due: u64,
    told: &mut Vec<Told>,
    out: &mut K,
) -> Result<(), StreamFault>
    requires idle { IsIdle craft.old }
    ensures ok { OnOk result (Flies (inputs_served craft.old.config (flight_of craft.old course.old)
        (clock_ticks due)) craft.new course.new (K.contents out.old) (K.contents out.new)
        (Some told.old.items) (Some told.new.items)) }
    ensures idle { OnOk result (IsIdle craft.new) }
    ensures jobs { OnOk result (craft.new.node.at.jobs ≡ craft.old.node.at.jobs) }

    ensures since { course.new.since ≡ course.old.since }
    ensures pace { course.new.pace ≡ course.old.pace }
    ensures config { craft.new.config ≡ craft.old.config }
    ensures memories { craft.new.memories ≡ craft.old.memories }

    ensures fault { IfErr result (λ e. (e ≡ StreamFault.Write) ⊎ (e ≡ StreamFault.Memory)) }
    ensures writer { WriteEnds result (K.failed out.old) (K.failed out.new) }
    ensures part { IfErr result (λ _. AppendsPart (K.contents out.old) (K.contents out.new)
        (all_octets (inputs_served craft.old.config (flight_of craft.old course.old)
        (clock_ticks due)).packets)) }
{
    for k in 0..due {
        tick_one(craft, course, told, out)?;
    }
    Ok(())
}

// Takes a packet, and ticks behind it if that is due, and adds what there is to tell.
fn take_next<K: Sink>(
    craft: &mut Spacecraft,
    course: &mut PaceCourse,
    octets: &[u8],
    told: &mut Vec<Told>,
    out: &mut K,
) -> Result<(), StreamFault>
    requires idle { IsIdle craft.old }
    requires room { jobs_numbered craft.old.node.at.jobs + 1 < 2 ^ 64 }
    requires since { course.old.since + 1 < 2 ^ 64 }
    ensures ok { OnOk result (Flies (inputs_served craft.old.config (flight_of craft.old course.old)
        (came_with course.old.pace.every course.old.since octets.now)) craft.new course.new
        (K.contents out.old) (K.contents out.new) (Some told.old.items) (Some told.new.items)) }
    ensures since { OnOk result (course.new.since
        ≡ counted_on course.old.pace.every course.old.since) }
    ensures idle { OnOk result (IsIdle craft.new) }

    ensures pace { course.new.pace ≡ course.old.pace }
    ensures config { craft.new.config ≡ craft.old.config }

    ensures fault { IfErr result (λ e. (e ≡ StreamFault.Write) ⊎ (e ≡ StreamFault.Memory)) }
    ensures writer { WriteEnds result (K.failed out.old) (K.failed out.new) }
    ensures breaks { IfErr result (λ _. Breaks craft.old.memories
        (plain (inputs_served craft.old.config (flight_of craft.old course.old)
        (came_with course.old.pace.every course.old.since octets.now)))
        craft.new.memories (K.contents out.old) (K.contents out.new)) }
{
    match take_one(craft, course, octets, told, out) {
        Ok(()) => {}
        Err(fault) => return Err(fault),
    }
    if course.since + 1 != course.pace.every {
        course.since += 1;
        return Ok(());
    }
    course.since = 0;
    match tick_one(craft, course, told, out) {
        Ok(()) => Ok(()),
        Err(fault) => Err(fault),
    }
}

// Takes a packet, and adds what became of it.
fn take_one<K: Sink>(
    craft: &mut Spacecraft,
    course: &mut PaceCourse,
    octets: &[u8],
    told: &mut Vec<Told>,
    out: &mut K,
) -> Result<(), StreamFault>
    requires idle { IsIdle craft.old }
    requires room { jobs_numbered craft.old.node.at.jobs + 1 < 2 ^ 64 }
    ensures ok { OnOk result (Flies (step craft.old.config (flight_of craft.old course.old)
        (Came octets.now)) craft.new course.new (K.contents out.old) (K.contents out.new)
        (Some told.old.items) (Some told.new.items)) }
    ensures idle { OnOk result (IsIdle craft.new) }

    ensures since { course.new.since ≡ course.old.since }
    ensures pace { course.new.pace ≡ course.old.pace }
    ensures config { craft.new.config ≡ craft.old.config }

    ensures fault { IfErr result (λ e. (e ≡ StreamFault.Write) ⊎ (e ≡ StreamFault.Memory)) }
    ensures writer { WriteEnds result (K.failed out.old) (K.failed out.new) }
    ensures breaks { IfErr result (λ _. Breaks craft.old.memories
        (packet_taken craft.old.config (onboard craft.old) octets.now) craft.new.memories
        (K.contents out.old) (K.contents out.new)) }
{
    let taken = match craft.take(octets, out) {
        Ok(taken) => taken,
        Err(fault) => return Err(fault),
    };
    match course.note_taken(craft, taken, told) {
        Ok(()) => Ok(()),
        Err(fault) => Err(fault),
    }
}

// Ticks, frees the names that are due then, and adds what there is to tell.
fn tick_one<K: Sink>(
    craft: &mut Spacecraft,
    course: &mut PaceCourse,
    told: &mut Vec<Told>,
    out: &mut K,
) -> Result<(), StreamFault>
    requires idle { IsIdle craft.old }
    ensures ok { OnOk result (Flies (inputs_served craft.old.config (flight_of craft.old course.old)
        (Ticked ∷ Cleared ∷ [])) craft.new course.new (K.contents out.old) (K.contents out.new)
        (Some told.old.items) (Some told.new.items)) }
    ensures idle { OnOk result (IsIdle craft.new) }
    ensures jobs { OnOk result (craft.new.node.at.jobs ≡ craft.old.node.at.jobs) }

    ensures since { course.new.since ≡ course.old.since }
    ensures pace { course.new.pace ≡ course.old.pace }
    ensures config { craft.new.config ≡ craft.old.config }
    ensures memories { craft.new.memories ≡ craft.old.memories }

    ensures fault { IfErr result (λ e. (e ≡ StreamFault.Write) ⊎ (e ≡ StreamFault.Memory)) }
    ensures writer { WriteEnds result (K.failed out.old) (K.failed out.new) }
    ensures part { IfErr result (λ _. AppendsPart (K.contents out.old) (K.contents out.new)
        (all_octets (beaten craft.old.config (onboard craft.old)).1)) }
{
    let mut given_up = Vec::new(craft.alloc);
    match craft.tick(&mut given_up, out) {
        Ok(()) => {}
        Err(fault) => return Err(fault),
    }
    match course.note_all(craft, &given_up, told) {
        Ok(()) => {}
        Err(fault) => return Err(fault),
    }
    match course.clear(craft, told) {
        Ok(()) => Ok(()),
        Err(fault) => Err(fault),
    }
}
