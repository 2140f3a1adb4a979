//! What a pass hears.

ghost use Rattle.std.specs.Prelude.{◌≡◌, None};
ghost use Rattle.lpt_ground.specs.Carrying.{Came, Over, Quiet};
ghost use Rattle.lpt_c_ground.specs.Calls.{Goes, IfBoth};
ghost use Rattle.lpt_c_ground.specs.Codes.{answer, refusal_by, IsAnswer};

use crate::codes::{DONE, EMPTY, MEMORY};
use crate::grounds::Ground;
use crate::handle::{LptGround, put, take};
use lpt_packet::Octets;
use std::alloc::Global;

/// Takes the octets of a packet that came. The first request that they settle has its fate then;
/// octets that settle none are passed over.
///
/// It answers 0; 106 if the handle is empty; 58 when out of memory. Unless it answers 0, nothing
/// has changed.
pub fn lpt_ground_packet(alloc: Global, pass: &mut LptGround, octets: &[u8]) -> u32
    ensures code { IsAnswer (refusal_by (λ g. None) pass.old.held.value) result }
    ensures done { result ≡ 0
        → IfBoth (Goes (Came octets.now)) pass.old.held.value pass.new.held.value }
    ensures refused { ¬ (result ≡ 0) → pass.new.held.value ≡ pass.old.held.value }
{
    let Some(mut held) = take(alloc, pass) else {
        return EMPTY;
    };
    let code = held.hear(alloc, octets);
    put(pass, held);
    code
}

/// Takes it that no packet came for as long as the pass waits: a new round begins.
///
/// It answers 0; 106 if the handle is empty.
pub fn lpt_ground_quiet(alloc: Global, pass: &mut LptGround) -> u32
    ensures code { result ≡ answer (refusal_by (λ g. None) pass.old.held.value) }
    ensures done { IfBoth (Goes Quiet) pass.old.held.value pass.new.held.value }
{
    let Some(mut held) = take(alloc, pass) else {
        return EMPTY;
    };
    held.pass.quiet();
    put(pass, held);
    DONE
}

/// Takes it that no packet will come any more: the pass is at its end.
///
/// It answers 0; 106 if the handle is empty.
pub fn lpt_ground_close(alloc: Global, pass: &mut LptGround) -> u32
    ensures code { result ≡ answer (refusal_by (λ g. None) pass.old.held.value) }
    ensures done { IfBoth (Goes Over) pass.old.held.value pass.new.held.value }
{
    let Some(mut held) = take(alloc, pass) else {
        return EMPTY;
    };
    held.pass.close();
    put(pass, held);
    DONE
}

impl Ground {
    // Takes the octets of a packet. They are copied, so that memory may run out.
    fn hear(&mut self, alloc: Global, octets: &[u8]) -> u32
        ensures code { IsAnswer None result }
        ensures done { result ≡ 0 → Goes (Came octets.now) self.old self.new }
        ensures refused { ¬ (result ≡ 0) → self.new ≡ self.old }
    {
        let Ok(copy) = Vec::from_slice(alloc, octets) else {
            return MEMORY;
        };
        self.pass.hear(Octets::from_vec(copy));
        DONE
    }
}
