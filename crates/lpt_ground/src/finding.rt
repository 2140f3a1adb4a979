//! Requests found by what became of them.

ghost use Rattle.std.specs.Prelude.{◌≡◌, ◌<◌, ◌≤◌, length, position, slice_get, IfSome};
ghost use Rattle.std.specs.List.{list_all, position_or_len};
ghost use Rattle.lpt_pus.specs.Telemetry.{telemetry};
ghost use Rattle.lpt_ground.specs.Passes.{is_done};
ghost use Rattle.lpt_ground.specs.Telling.{fate_by, request_fated, is_waiting, settles};

use crate::{Asked, Fate, Said};
use lpt_packet::Octets;
use lpt_pus::TmHead;

// The first that waits.
pub(crate) fn first_waiting(asked: &[Asked]) -> Option<usize>
    ensures first { result ≡ position is_waiting asked.now }
    ensures within { IfSome result (λ k. k < length asked.now) }
{
    asked.iter().position(|asked| asked.fate.waits())
}

// The place of the first that waits, of which none before this place does; how many they are, if
// none waits.
pub(crate) fn first_from(asked: &[Asked], from: usize) -> usize
    requires within { from ≤ length asked.now }
    requires front { from ≤ position_or_len is_waiting asked.now }
    ensures first { result ≡ position_or_len is_waiting asked.now }
    ensures within { result ≤ length asked.now }
{
    match first_waiting(&asked[from..]) {
        Some(k) => from + k,
        None => asked.len(),
    }
}

// The first that telemetry settles, if none before this place waits.
pub(crate) fn first_settled(
    asked: &[Asked],
    from: usize,
    starts: bool,
    head: &TmHead,
    body: &[u8],
) -> Option<usize>
    requires within { from ≤ length asked.now }
    requires front { from ≤ position_or_len is_waiting asked.now }
    ensures { result ≡ position (settles starts (telemetry head.now body.now)) asked.now }
{
    match settled_in(&asked[from..], starts, head, body) {
        Some(k) => Some(from + k),
        None => None,
    }
}

// The first that telemetry settles.
fn settled_in(asked: &[Asked], starts: bool, head: &TmHead, body: &[u8]) -> Option<usize>
    ensures first { result ≡ position (settles starts (telemetry head.now body.now)) asked.now }
    ensures within { IfSome result (λ k. k < length asked.now) }
{
    asked
        .iter()
        .position(|asked| asked.is_settled_by(starts, head, body))
}

// Whether a packet settled each of them.
pub(crate) fn are_done(asked: &[Asked]) -> bool
    ensures { result ≡ list_all is_done asked.now }
{
    asked.iter().all(|asked| asked.fate.has_come())
}

// The request at this place has the fate that octets say from now on, if there is one; gives the
// place of the first that waits then, if this was the first before.
pub(crate) fn settle(
    asked: &mut [Asked],
    first: usize,
    k: usize,
    said: Said,
    octets: Octets,
) -> usize
    requires first { first ≡ position_or_len is_waiting asked.old }
    requires within { first ≤ length asked.old }
    ensures asked { asked.new ≡ request_fated asked.old k (fate_by said octets)
        (slice_get asked.old k) }
    ensures first { result ≡ position_or_len is_waiting asked.new }
    ensures within { result ≤ length asked.new }
{
    set_fate(asked, k, said.fate(octets));
    first_from(asked, first)
}

// The request at this place has this fate from now on, if there is one.
#[tactic(auto, using(std::proofs::lemmas::Option::slice_get_read, std::proofs::lemmas::Option::slice_get_past))]
fn set_fate(asked: &mut [Asked], k: usize, fate: Fate)
    ensures { asked.new ≡ request_fated asked.old k fate (slice_get asked.old k) }
{
    if k < asked.len() {
        let one = &mut asked[k];
        one.fate = fate;
    }
}
