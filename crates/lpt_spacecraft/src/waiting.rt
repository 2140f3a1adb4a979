//! A spacecraft that ticks also while nothing comes.

ghost use Rattle.std.specs.Prelude.{◌≡◌, ◌⊎◌, ◌^◌, IfErr, OnErr, OnOk, IsOk};
ghost use Rattle.lpt_text.specs.Streams.{ReadEnds, WriteEnds};
ghost use Rattle.lpt_spacecraft.specs.Flights.{clock_ticks, inputs_served};
ghost use Rattle.lpt_spacecraft.specs.Keeping.{IsKeptAs};
ghost use Rattle.lpt_spacecraft.specs.Streams.{flight_of, plain, Breaks, Flies, IsIdle};
ghost use Rattle.lpt_spacecraft.specs.Waiting.{AttendsTo, IsWithoutEnd};

use crate::flying::tick_all;
use crate::inlet::{Happening, Inlet};
use crate::keeping::Outlet;
use crate::pace::PaceCourse;
use crate::serving::{serve_packet, tell_all};
use crate::{Clock, Keeper, Listener, Pace, Spacecraft, Stop, Told};
use lpt_text::{FromStd, Sink, StreamFault, flush_out};

/// Takes each packet that the inlet gives, up to the end that it gives, and ticks at this pace:
/// before each packet, and also if nothing came for a while, the clock is asked, and all ticks that
/// are due by it come. Behind a packet the spacecraft is kept as `serve_stream` keeps it, and
/// behind ticks alone if there were any; then what it made is written, and then what there is to
/// tell is told. Before it waits, `out` passes on all that was written.
///
/// Errors: `Read` if the inlet failed so, or if it gave 2^64 - 1 things, or as many requests
/// were released; `Write` if a write failed; `Memory`, also if the inlet failed so or the
/// spacecraft couldn't be kept. At a fault of what was given last, the memories are as before that
/// or as it leaves them, a front part of what would be reported stays written, and nothing of it is
/// told.
pub fn serve_waiting<I: Inlet, C: Clock, H: Keeper, L: Listener, K: Sink>(
    craft: &mut Spacecraft,
    pace: Pace,
    inlet: &mut I,
    clock: &mut C,
    keeper: &mut H,
    listener: &mut L,
    out: &mut K,
) -> Result<Stop, StreamFault>
    requires idle { IsIdle craft.old }
    requires kept { IsKeptAs (H.kept keeper.old) craft.old }
    ensures ends { AttendsTo pace result craft.old craft.new (I.given inlet.old)
        (I.given inlet.new) (K.contents out.old) (K.contents out.new) (C.answers clock.old)
        (C.answers clock.new) (L.heard listener.old) (L.heard listener.new) }

    // What was kept last is the spacecraft as it is.
    ensures kept { IsOk result → IsKeptAs (H.kept keeper.new) craft.new }

    // All that was written is passed on.
    ensures passed { IsOk result → K.flushed out.new ≡ K.contents out.new }
    ensures reader { ReadEnds (IsWithoutEnd craft.new (I.given inlet.old) (I.given inlet.new))
        result (I.failed inlet.old) (I.failed inlet.new) }
    ensures writer { WriteEnds result (K.failed out.old) (K.failed out.new) }
{
    let mut course = PaceCourse::new(craft.alloc, pace);
    for count in 0..u64::MAX {
        if craft.is_full() {
            return Err(StreamFault::Read);
        }
        flush_out(out)?;
        let octets = match inlet.next(out)? {
            Happening::Packet(octets) => octets,
            Happening::Nothing => {
                let due = clock.due();
                serve_ticks(craft, &mut course, due, keeper, listener, out)?;
                continue;
            }
            Happening::Skipped { place, len } => {
                listener.tell(Told::Skipped { place, len });
                continue;
            }
            Happening::End(stop) => return Ok(stop),
        };
        let due = clock.due();
        serve_packet(
            craft,
            &mut course,
            due,
            octets.as_slice(),
            keeper,
            listener,
            out,
        )?;
    }
    Err(StreamFault::Read)
}

// Ticks as often as is due. If that is ever, the spacecraft is kept, then what it made is written,
// and then what there is to tell is told.
fn serve_ticks<H: Keeper, L: Listener, K: Outlet>(
    craft: &mut Spacecraft,
    course: &mut PaceCourse,
    due: u64,
    keeper: &mut H,
    listener: &mut L,
    out: &mut K,
) -> Result<(), StreamFault>
    requires idle { IsIdle craft.old }
    requires kept { IsKeptAs (H.kept keeper.old) craft.old }
    ensures ok { OnOk result (Flies (inputs_served craft.old.config (flight_of craft.old course.old)
        (clock_ticks due)) craft.new course.new (K.contents out.old) (K.contents out.new)
        (L.heard listener.old) (L.heard listener.new)) }
    ensures idle { OnOk result (IsIdle craft.new) }
    ensures kept { OnOk result (IsKeptAs (H.kept keeper.new) craft.new) }

    ensures since { course.new.since ≡ course.old.since }
    ensures pace { course.new.pace ≡ course.old.pace }
    ensures config { craft.new.config ≡ craft.old.config }
    ensures memories { craft.new.memories ≡ craft.old.memories }

    ensures fault { IfErr result (λ e. (e ≡ StreamFault.Write) ⊎ (e ≡ StreamFault.Memory)) }
    ensures writer { WriteEnds result (K.failed out.old) (K.failed out.new) }
    ensures breaks { IfErr result (λ _. Breaks craft.old.memories
        (plain (inputs_served craft.old.config (flight_of craft.old course.old) (clock_ticks due)))
        craft.new.memories (K.contents out.old) (K.contents out.new)) }
    ensures untold { OnErr result (L.heard listener.new ≡ L.heard listener.old) }
{
    if due == 0 {
        return Ok(());
    }
    let mut told = Vec::new(craft.alloc);
    let mut made = FromStd::new(Vec::new(craft.alloc));
    match tick_all(craft, course, due, &mut told, &mut made) {
        Ok(()) => {}
        Err(_) => return Err(StreamFault::Memory),
    }
    if !keeper.keep(craft, &told) {
        return Err(StreamFault::Memory);
    }
    let made = made.into_inner();
    out.pass_on(keeper, craft, &made)?;
    tell_all(listener, &told);
    Ok(())
}
