//! A large message carried up, over what is heard and what is written.

ghost use Rattle.std.specs.Prelude.{◌≡◌, ◌<◌, ◌∷◌, ℕ, [], true, List, Option, IfOk, OnOk};
ghost use Rattle.lpt_ground.specs.Carrying.{AreTold};
ghost use Rattle.lpt_ground.specs.Passes.{state_of};
ghost use Rattle.lpt_ground.specs.CarryingLarge.{Stepped, Went};
ghost use Rattle.lpt_ground.specs.Parts.{parts_of};
ghost use Rattle.lpt_ground.specs.Uplinks.{next_way, way_of};

use crate::{Ear, End, Pass, Step, Uplink, Waited};
use lpt_text::{Sink, StreamFault, flush_out, write_out};
use std::alloc::Global;

/// Carries a large message to its end, beside the pass of its request: puts the packets of its
/// parts to the sink, and hears what comes. Before each round the ear is told of the request.
/// Before each wait the sink passes on what it has kept back.
///
/// Errors: `Write` if a write failed, or if the ear couldn't keep the request; `Memory`; `Read` if
/// it took 2^64 - 1 steps. What became of the request stays.
pub fn carry_large<E: Ear, K: Sink>(
    alloc: Global,
    uplink: &mut Uplink,
    pass: &mut Pass,
    ear: &mut E,
    out: &mut K,
) -> Result<End, StreamFault>
    // It is at its end. If it is done the request was told done by what was heard.
    ensures stop { IfOk result (λ e.
        next_way uplink.new.large (way_of uplink.new (state_of pass.new)) ≡ Step.Stop e) }
    ensures done { IfOk result (λ e. e ≡ End.Done
        → AreTold E.comes pass.old.terms pass.old.asked.items (E.told ear.old) (E.told ear.new)) }

    // What it wrote, and what became of it, follows from what it heard.
    ensures paced { OnOk result (Went E.comes uplink.old.large pass.old.terms
        (way_of uplink.old (state_of pass.old)) (way_of uplink.new (state_of pass.new))
        (E.told ear.old) (E.told ear.new) (K.contents out.old) (K.contents out.new)) }
    ensures large { uplink.new.large ≡ uplink.old.large }
    ensures terms { pass.new.terms ≡ pass.old.terms }
{
    if !ear.keep(pass.requests_asked()) {
        return Err(StreamFault::Write);
    }
    for _ in 0..u64::MAX {
        let step = uplink.next(pass);
        if let Step::Stop(end) = step {
            return Ok(end);
        }
        turn(alloc, uplink, pass, step, ear, out)?;
    }
    Err(StreamFault::Read)
}

// Does what is next.
fn turn<E: Ear, K: Sink>(
    alloc: Global,
    uplink: &mut Uplink,
    pass: &mut Pass,
    step: Step,
    ear: &mut E,
    out: &mut K,
) -> Result<(), StreamFault>
    requires round { E.is_kept ear.old ≡ true }
    requires next { next_way uplink.old.large (way_of uplink.old (state_of pass.old)) ≡ step }
    requires within { (k : ℕ) → step ≡ Step.Put k → k < parts_of uplink.old.large }
    ensures ok { OnOk result (Stepped E.comes uplink.old.large pass.old.terms
        (way_of uplink.old (state_of pass.old)) (way_of uplink.new (state_of pass.new))
        (E.told ear.old) (E.told ear.new) (K.contents out.old) (K.contents out.new)) }
    ensures kept { OnOk result (E.is_kept ear.new ≡ true) }
    ensures large { uplink.new.large ≡ uplink.old.large }
    ensures terms { pass.new.terms ≡ pass.old.terms }
{
    match step {
        Step::Put(k) => put_part(alloc, uplink, pass, k, ear, out),
        _ => listen(uplink, pass, ear, out),
    }
}

// Puts the part behind so many, unless a packet has come.
fn put_part<E: Ear, K: Sink>(
    alloc: Global,
    uplink: &mut Uplink,
    pass: &mut Pass,
    k: usize,
    ear: &mut E,
    out: &mut K,
) -> Result<(), StreamFault>
    requires round { E.is_kept ear.old ≡ true }
    requires next { next_way uplink.old.large (way_of uplink.old (state_of pass.old)) ≡ Step.Put k }
    requires within { k < parts_of uplink.old.large }
    ensures ok { OnOk result (Stepped E.comes uplink.old.large pass.old.terms
        (way_of uplink.old (state_of pass.old)) (way_of uplink.new (state_of pass.new))
        (E.told ear.old) (E.told ear.new) (K.contents out.old) (K.contents out.new)) }
    ensures kept { OnOk result (E.is_kept ear.new ≡ true) }
    ensures large { uplink.new.large ≡ uplink.old.large }
    ensures terms { pass.new.terms ≡ pass.old.terms }
{
    match ear.ready() {
        Some(octets) => {
            uplink.hear(pass, octets);
            Ok(())
        }
        None => {
            let packet = uplink.packet(alloc, k)?;
            write_out(out, packet.as_slice())?;
            uplink.part_sent(k);
            Ok(())
        }
    }
}

// Listens for a packet, for as long as a pass waits. If none comes a round begins.
fn listen<E: Ear, K: Sink>(
    uplink: &mut Uplink,
    pass: &mut Pass,
    ear: &mut E,
    out: &mut K,
) -> Result<(), StreamFault>
    requires { E.is_kept ear.old ≡ true }
    ensures ok { OnOk result (Stepped E.comes uplink.old.large pass.old.terms
        (way_of uplink.old (state_of pass.old)) (way_of uplink.new (state_of pass.new))
        (E.told ear.old) (E.told ear.new) (K.contents out.old) (K.contents out.new)) }
    ensures kept { OnOk result (E.is_kept ear.new ≡ true) }
    ensures large { uplink.new.large ≡ uplink.old.large }
    ensures terms { pass.new.terms ≡ pass.old.terms }
{
    flush_out(out)?;
    match ear.wait(out) {
        Waited::Packet(octets) => uplink.hear(pass, octets),
        Waited::End => uplink.close(pass),
        Waited::Quiet => {
            uplink.quiet(pass);
            if !ear.keep(pass.requests_asked()) {
                return Err(StreamFault::Write);
            }
        }
    }
    Ok(())
}
