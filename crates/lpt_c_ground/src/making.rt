//! Making a pass, and letting it go.

ghost use Rattle.std.specs.Prelude.{◌≡◌, ◌≤◌, None, IfOk, IfErr, IfSome, IsTrue, length};
ghost use Rattle.lpt_c_ground.specs.Addresses.{ground_at, NullIfNone};
ghost use Rattle.lpt_c_ground.specs.Calls.{IfHeld};
ghost use Rattle.lpt_c_ground.specs.Codes.{answer, memory, IsAnswer};
ghost use Rattle.lpt_c_ground.specs.Jobs.{is_job};
ghost use Rattle.lpt_ground.specs.Plans.{requests_planned};
ghost use Rattle.lpt_c_ground.specs.Plans.{most, new_refusal, IsNew};

use crate::address::{LptGroundAddress, hand_out};
use crate::codes::{BAD_AREA, DONE, LONG_JOB, MEMORY, RANGE};
use crate::grounds::Ground;
use crate::handle::take;
use crate::jobs::{JobKind, LptJob, LptPlace};
use crate::places::{are_too_many, have_together, places_fault, some_overlap};
use crate::requests::requests_of;
use lpt_ground::{Asked, Pass, plan_requests};
use lpt_pus::AckFlags;
use lpt_requests::Request;
use std::alloc::Global;

/// Makes the pass of a job, and writes its address. The octets of a load stand in the content,
/// those of one place behind those of the other, and are copied; a dump and a check look at no
/// content.
///
/// It answers 0; 102 if a number of the job is out of its range; 28 if there is no place, or one
/// has no octets or ends behind the last address; 121 if it takes more requests than a pass has,
/// 16,384; 102 if the content of a load isn't as long as its places together; 28 if two places of a
/// load share an address; 58 when out of memory. The address is written only at 0.
pub fn lpt_ground_new(
    alloc: Global,
    pass: &mut LptGroundAddress,
    job: &LptJob,
    places: &[LptPlace],
    content: &[u8],
) -> u32
    ensures code { IsAnswer (new_refusal job.now places.now content.now) result }
    ensures done { result ≡ 0
        → IfHeld (IsNew job.now places.now content.now) (ground_at pass.new.value) }
    ensures refused { ¬ (result ≡ 0) → pass.new ≡ pass.old }
{
    let fault = refusal(job, places, content);
    if fault != DONE {
        return fault;
    }
    match Ground::new(alloc, job, places, content) {
        Ok(made) => hand_out(alloc, made, pass),
        Err(code) => code,
    }
}

/// Lets a pass go, with all that it has, and its address. Of a null address nothing happens.
pub fn lpt_ground_free(alloc: Global, pass: LptGroundAddress)
    requires { NullIfNone pass.at pass.value }
{
    if let Some(fields) = pass.into_fields() {
        let mut handle = fields.into_box();
        let _ = take(alloc, &mut *handle);
    }
}

// Why a job has no pass, or that it has one.
fn refusal(job: &LptJob, places: &[LptPlace], content: &[u8]) -> u32
    ensures { result ≡ answer (new_refusal job.now places.now content.now) }
{
    if !job.is_job() {
        return RANGE;
    }
    if places_fault(places).is_some() {
        return BAD_AREA;
    }
    if are_too_many(places, job.each()) {
        return LONG_JOB;
    }
    match job.kind() {
        JobKind::Load if !have_together(places, content.len()) => RANGE,
        JobKind::Load if some_overlap(places) => BAD_AREA,
        _ => DONE,
    }
}

impl Ground {
    // The pass of a job that isn't refused, or the number of out of memory.
    fn new(
        alloc: Global,
        job: &LptJob,
        places: &[LptPlace],
        content: &[u8],
    ) -> Result<Box<Ground, Global>, u32>
        requires { new_refusal job.now places.now content.now ≡ None }
        ensures ok { IfOk result (λ b. IsNew job.now places.now content.now b.value) }
        ensures err { IfErr result (λ code. code ≡ memory) }
    {
        let each = job.each();
        let Ok(requests) = requests_of(alloc, job.kind(), each, job.memory, places, content) else {
            return Err(MEMORY);
        };
        let Some(asked) = asked_of(alloc, job, &requests) else {
            return Err(MEMORY);
        };
        let pass = Pass::new(job.terms(), asked);
        match Box::new(alloc, Ground { pass }) {
            Ok(made) => Ok(made),
            Err(_) => Err(MEMORY),
        }
    }
}

// The requests of a pass, or none when out of memory.
fn asked_of(alloc: Global, job: &LptJob, requests: &[Request]) -> Option<Vec<Asked>>
    requires job { IsTrue (is_job job.now) }
    requires few { length requests.now ≤ most }
    ensures { IfSome result (λ v. v.items
        ≡ requests_planned job.now.apid job.now.source job.now.count job.now.flags requests.now) }
{
    let flags = AckFlags::new(job.flags)?;
    plan_requests(alloc, job.apid, job.source, job.count, flags, requests).ok()
}
