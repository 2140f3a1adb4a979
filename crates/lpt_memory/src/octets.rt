//! What a plan reads of memories, and its answer by the octets that it reads.

ghost use Rattle.std.specs.Prelude.{◌≡◌, ℕ, List, ◌<◌, ◌++◌, length, IfOk, IsOk, OnOk};
ghost use Rattle.lpt_memory.specs.Effects.{HasNoReply};
ghost use Rattle.lpt_memory.specs.Given.{all_length, area_of, answer_of, read_length, reply_of};
ghost use Rattle.lpt_memory.specs.Seen.{plan_meaning, IsCounted};

use crate::reply::{check_len, dump_len, push_check_area, push_dump_area};
use crate::request::{AreaRange, Plan};
use crate::{Effect, ReplyKind};
use lpt_packet::Octets;
use std::alloc::{AllocError, Global};

// How many octets there are in ranges.
fn all_len(ranges: &[AreaRange]) -> usize
    requires { length ranges.now < 256 }
    ensures { result ≡ all_length ranges.now }
{
    let mut len = 0;
    for range in ranges {
        len += usize::from(range.len);
    }
    len
}

// Adds an area of the reply of a kind. The only error is out of memory.
fn push_area(
    body: &mut Vec<u8>,
    kind: ReplyKind,
    range: &AreaRange,
    octets: &[u8],
) -> Result<(), AllocError>
    ensures { OnOk result (body.new.items ≡ body.old.items ++ area_of kind range.now octets.now) }
{
    match kind {
        ReplyKind::Dump => push_dump_area(body, range, octets),
        ReplyKind::Check => push_check_area(body, range, octets),
    }
}

// The body of a reply of a kind, by the octets of its areas, one behind the other. The only error
// is out of memory.
fn body_given(
    alloc: Global,
    kind: ReplyKind,
    id: u8,
    ranges: &[AreaRange],
    octets: &[u8],
) -> Result<Octets, AllocError>
    requires counted { length ranges.now < 256 }
    requires whole { length octets.now ≡ all_length ranges.now }
    ensures { IfOk result (λ o. o ≡ reply_of kind id ranges.now octets.now) }
{
    let len = match kind {
        ReplyKind::Dump => dump_len(ranges),
        ReplyKind::Check => check_len(ranges),
    };
    let mut body = Vec::with_capacity(alloc, len)?;
    body.push(id)?;
    body.push(ranges.len() as u8)?;
    let mut rest = octets;
    for range in ranges {
        let (area, behind) = rest.split_at(usize::from(range.len));
        push_area(&mut body, kind, range, area)?;
        rest = behind;
    }
    Ok(Octets::from_vec(body))
}

// How many octets are read, whatever the message's body is.
pub(crate) fn read_len(plan: &Plan) -> usize
    requires { IsCounted plan.now }
    ensures { (body : List ℕ) → result ≡ read_length (plan_meaning body plan.now) }
{
    match plan {
        Plan::Silent => 0,
        Plan::Code(_) => 0,
        Plan::Load(_, _) => 0,
        Plan::Dump(_, ranges) => all_len(ranges),
        Plan::Check(_, ranges) => all_len(ranges),
    }
}

// The answer by the octets that are read, whatever the message's body is. The only error is out of
// memory, for a reply.
pub(crate) fn answer_of(alloc: Global, plan: &Plan, octets: &[u8]) -> Result<Effect, AllocError>
    requires counted { IsCounted plan.now }
    requires whole { (body : List ℕ) → length octets.now
        ≡ read_length (plan_meaning body plan.now) }
    ensures answer { (body : List ℕ)
        → IfOk result (λ e. e ≡ answer_of (plan_meaning body plan.now) octets.now) }
    ensures no_reply { (body : List ℕ) → HasNoReply (plan_meaning body plan.now) → IsOk result }
{
    match plan {
        Plan::Silent => Ok(Effect::Silent),
        Plan::Code(code) => Ok(Effect::Code(*code)),
        Plan::Load(_, _) => Ok(Effect::Done),
        Plan::Dump(id, ranges) => {
            let body = body_given(alloc, ReplyKind::Dump, *id, ranges, octets)?;
            Ok(Effect::Reply(ReplyKind::Dump, body))
        }
        Plan::Check(id, ranges) => {
            let body = body_given(alloc, ReplyKind::Check, *id, ranges, octets)?;
            Ok(Effect::Reply(ReplyKind::Check, body))
        }
    }
}
