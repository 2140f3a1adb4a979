//! A pass carried by what another thread hands over.

ghost use Rattle.std.specs.Prelude.{◌≡◌, Ok, IfOk};
ghost use Rattle.lpt_ground.specs.Passes.{state_of};
ghost use Rattle.lpt_ground.specs.Uplinks.{way_of};
ghost use Rattle.lpt_ground_run.specs.Carried.{CameTo, CameUp};
ghost use Rattle.lpt_ground_run.specs.Handing.{IsPacketOf};

use crate::downlink::Downlink;
use crate::hearing::{Hearing, Notes};
use lpt_ground::{End, Pass, Uplink, carry, carry_large};
use lpt_text::{Sink, StreamFault};
use std::alloc::Global;
use std::sync::Wait;
use std::time::Clock;

/// Carries a pass to its end, by what is heard of another thread. The notes are told of the
/// requests before each round, and however it ends.
///
/// Errors: `Write` if a write failed, or if the notes couldn't be kept; `Read` if a read
/// of what comes down failed; `Memory` if memory ran out for it. What became of the requests
/// stays.
pub fn carry_pass<R: Wait + Clock + Drop, N: Notes + Drop, J: Downlink, K: Sink>(
    pass: &mut Pass,
    hearing: &mut Hearing<R, N, J>,
    out: &mut K,
) -> Result<End, StreamFault>
    // Each packet that it heard is one of the octets that come down. If it is done, each request
    // that waited was told so by one of them.
    ensures carried { IfOk result (CameTo (IsPacketOf J.longest J.octets) pass.old.terms
        (state_of pass.old) (state_of pass.new) (K.contents out.old) (K.contents out.new)) }
    ensures terms { pass.new.terms ≡ pass.old.terms }
{
    let ended = carry(pass, hearing, out);
    ended_by(pass, hearing, ended)
}

/// Carries a large message to its end, beside the pass of its request, by what is heard of another
/// thread. The notes are told as by `carry_pass`.
///
/// Errors: as of `carry_pass`; `Memory` also if memory ran out for a packet. What became of the
/// request stays.
pub fn carry_uplink<R: Wait + Clock + Drop, N: Notes + Drop, J: Downlink, K: Sink>(
    alloc: Global,
    uplink: &mut Uplink,
    pass: &mut Pass,
    hearing: &mut Hearing<R, N, J>,
    out: &mut K,
) -> Result<End, StreamFault>
    // The same: if it is done, the request was told so by one of these packets.
    ensures carried { IfOk result (CameUp (IsPacketOf J.longest J.octets)
        uplink.old.large pass.old.terms
        (way_of uplink.old (state_of pass.old)) (way_of uplink.new (state_of pass.new))
        (K.contents out.old) (K.contents out.new)) }
    ensures large { uplink.new.large ≡ uplink.old.large }
    ensures terms { pass.new.terms ≡ pass.old.terms }
{
    let ended = carry_large(alloc, uplink, pass, hearing, out);
    ended_by(pass, hearing, ended)
}

// How a pass ended that came to this end, once the notes were told of it.
fn ended_by<R: Wait + Clock + Drop, N: Notes + Drop, J: Downlink>(
    pass: &Pass,
    hearing: &mut Hearing<R, N, J>,
    ended: Result<End, StreamFault>,
) -> Result<End, StreamFault>
    ensures { IfOk result (λ e. ended ≡ Ok e) }
{
    if !hearing.tell_end(pass.requests_asked()) {
        return Err(StreamFault::Write);
    }
    match hearing.fault() {
        Some(fault) if matches!(ended, Ok(End::Ended)) => Err(fault),
        _ => ended,
    }
}
