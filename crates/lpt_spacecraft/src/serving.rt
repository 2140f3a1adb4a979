//! A stream of packets, served as it comes.

ghost use Rattle.std.specs.Prelude.{◌≡◌, ◌⊎◌, ◌+◌, ◌<◌, ◌^◌, ◌++◌, IfErr, IfOk, OnErr, OnOk, IsOk, Some};
ghost use Rattle.std.specs.Io.KnownBytes.{Keeps};
ghost use Rattle.lpt_jobs.specs.Jobs.{jobs_numbered};
ghost use Rattle.lpt_text.specs.Streams.{ReadEnds, WriteEnds};
ghost use Rattle.lpt_spacecraft.specs.Flights.{came_with, clock_ticks, counted_on, inputs_served};
ghost use Rattle.lpt_spacecraft.specs.Keeping.{IsKeptAs};
ghost use Rattle.lpt_spacecraft.specs.Streams.{flight_of, plain, Breaks, Flies, IsEndless, IsIdle, ServesTo};
ghost use Rattle.lpt_spacecraft.specs.Telling.{Hears};

use crate::clock::due_by;
use crate::flying::serve_one;
use crate::front::{Front, find_front};
use crate::keeping::{Outlet, keep_changed};
use crate::pace::PaceCourse;
use crate::{Clock, Keeper, Listener, Pace, Spacecraft, Stop, Told};
use lpt_stream::{Cut, Found, PacketBuffer, Peer, PieceKind};
use lpt_text::{FromStd, Sink, StreamFault, flush_out};

/// Reads a stream of packets to its end, or up to what is no packet, takes each packet, and ticks
/// at this pace. It is cut by the rule `Resumed`: a packet is one whose checksum is right, and that
/// isn't longer than the longest. Behind each packet the spacecraft is kept, unless it still is as
/// it was kept last; then what it made is written, and then what there is to tell is told.
/// Before each read, and at the end, `out` passes on all that was written.
///
/// If the pace says so, what is no packet is passed over, and that is told: a damaged packet by its
/// length, or octets astray, all of them. Otherwise a damaged packet of version 0 is taken as well,
/// of which the node says that it can't be read. And if the pace says so, before a packet is taken
/// the clock is asked, and all ticks that are due by it come.
///
/// Errors: `Read` if a read failed, after all packets before it; or if 2^64 - 1 packets came,
/// or as many requests, or so many octets are passed over; `Write` if a write failed; `Memory`,
/// also if the spacecraft couldn't be kept. The memories are then as before the last packet or
/// as that leaves them, a front part of what would be reported stays written, and of the last
/// packet nothing is told.
pub fn serve_stream<P: Peer, C: Clock, H: Keeper, L: Listener, K: Sink>(
    craft: &mut Spacecraft,
    pace: Pace,
    peer: &mut P,
    clock: &mut C,
    keeper: &mut H,
    listener: &mut L,
    out: &mut K,
) -> Result<Stop, StreamFault>
    requires idle { IsIdle craft.old }
    requires kept { IsKeptAs (H.kept keeper.old) craft.old }
    ensures ends { ServesTo pace result craft.old craft.new (P.remaining peer.old)
        (P.remaining peer.new) (K.contents out.old) (K.contents out.new)
        (C.answers clock.old) (C.answers clock.new) (L.heard listener.old)
        (L.heard listener.new) }

    // What was kept last is the spacecraft as it is.
    ensures kept { IsOk result → IsKeptAs (H.kept keeper.new) craft.new }

    // All that was written is passed on.
    ensures passed { IsOk result → K.flushed out.new ≡ K.contents out.new }
    ensures reader { ReadEnds (IsEndless pace.passing craft.new (P.remaining peer.old)
        (P.remaining peer.new)) result (P.failed peer.old) (P.failed peer.new) }
    ensures writer { WriteEnds result (K.failed out.old) (K.failed out.new) }
{
    let mut buffer = PacketBuffer::new(craft.alloc, Cut::Resumed(pace.passing.longest));
    let mut course = PaceCourse::new(craft.alloc, pace);
    let mut place: u64 = 0;
    for count in 0..u64::MAX {
        let len = match find_front(&mut buffer, pace.passing, place, peer, out) {
            Ok(Front::Packet(len)) => len,
            Ok(Front::Strays(len)) => {
                listener.tell(Told::Skipped { place, len });
                place = place.saturating_add(len);
                continue;
            }
            Ok(Front::Stop(stop)) => return stop_at(stop, out),
            Err(fault) => return Err(fault),
        };
        if craft.is_full() {
            return Err(StreamFault::Read);
        }
        let due = due_by(clock, pace.clocked);
        let octets = &buffer.octets_held()[..len];
        match serve_packet(craft, &mut course, due, octets, keeper, listener, out) {
            Ok(()) => {}
            Err(fault) => return Err(fault),
        }
        place = place.saturating_add(len as u64);
        buffer.skip(Found {
            kind: PieceKind::Whole,
            len,
        });
    }
    Err(StreamFault::Read)
}

// Ticks as often as is due, takes a packet, and ticks behind it if that is due. What they make
// is written once the spacecraft is kept, and then what there is to tell is told.
pub(crate) fn serve_packet<H: Keeper, L: Listener, K: Outlet>(
    craft: &mut Spacecraft,
    course: &mut PaceCourse,
    due: u64,
    octets: &[u8],
    keeper: &mut H,
    listener: &mut L,
    out: &mut K,
) -> Result<(), StreamFault>
    requires idle { IsIdle craft.old }
    requires room { jobs_numbered craft.old.node.at.jobs + 1 < 2 ^ 64 }
    requires since { course.old.since + 1 < 2 ^ 64 }
    requires kept { IsKeptAs (H.kept keeper.old) craft.old }
    ensures ok { OnOk result (Flies (inputs_served craft.old.config (flight_of craft.old course.old)
        (clock_ticks due ++ came_with course.old.pace.every course.old.since octets.now))
        craft.new course.new (K.contents out.old) (K.contents out.new) (L.heard listener.old)
        (L.heard listener.new)) }
    ensures since { OnOk result (course.new.since
        ≡ counted_on course.old.pace.every course.old.since) }
    ensures idle { OnOk result (IsIdle craft.new) }
    ensures kept { OnOk result (IsKeptAs (H.kept keeper.new) craft.new) }

    ensures pace { course.new.pace ≡ course.old.pace }
    ensures config { craft.new.config ≡ craft.old.config }

    ensures fault { IfErr result (λ e. (e ≡ StreamFault.Write) ⊎ (e ≡ StreamFault.Memory)) }
    ensures writer { WriteEnds result (K.failed out.old) (K.failed out.new) }
    ensures breaks { IfErr result (λ _. Breaks craft.old.memories
        (plain (inputs_served craft.old.config (flight_of craft.old course.old)
        (clock_ticks due ++ came_with course.old.pace.every course.old.since octets.now)))
        craft.new.memories (K.contents out.old) (K.contents out.new)) }
    ensures untold { OnErr result (L.heard listener.new ≡ L.heard listener.old) }
{
    let mut told = Vec::new(craft.alloc);
    let mut made = FromStd::new(Vec::new(craft.alloc));
    let ticked = course.ticks_with(due);
    match serve_one(craft, course, due, octets, &mut told, &mut made) {
        Ok(()) => {}
        Err(_) => return Err(StreamFault::Memory),
    }
    if !keep_changed(keeper, craft, &told, ticked) {
        return Err(StreamFault::Memory);
    }
    let made = made.into_inner();
    out.pass_on(keeper, craft, &made)?;
    tell_all(listener, &told);
    Ok(())
}

// Tells each of these.
pub(crate) fn tell_all<L: Listener>(listener: &mut L, told: &[Told])
    ensures { Hears (L.heard listener.old) (L.heard listener.new) told.now }
{
    for one in told {
        listener.tell(*one);
    }
}

// Passes on all that was written, and stops there.
fn stop_at<K: Sink>(stop: Stop, out: &mut K) -> Result<Stop, StreamFault>
    ensures same { Keeps (K.contents out.old) (K.contents out.new) }
    ensures stop { IfOk result (λ s. s ≡ stop) }
    ensures passed { IsOk result → K.flushed out.new ≡ K.contents out.new }
    ensures fault { IfErr result (λ e. e ≡ StreamFault.Write) }
    ensures writer { WriteEnds result (K.failed out.old) (K.failed out.new) }
{
    flush_out(out)?;
    Ok(stop)
}
