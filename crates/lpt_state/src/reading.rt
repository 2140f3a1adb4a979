//! An end made of octets that are its state.

ghost use Rattle.std.specs.Prelude.{◌≡◌, ◌+◌, ◌<◌, ◌≤◌, ◌==◌, ◌&&◌, ◌^◌, length, Ok, IfOk, IfErr};
ghost use Rattle.lpt_events.specs.Configs.{IsConfig};
ghost use Rattle.lpt_jobs.specs.Jobs.{no_jobs};
ghost use Rattle.lpt_ledger.specs.Runs.{ascend, closed_by, has_name, is_behind, stands};
ghost use Rattle.lpt_node.specs.Restarts.{NoneOpen};
ghost use Rattle.lpt_state.specs.Found.{state_found, Gives};
ghost use Rattle.lpt_state.specs.Spellings.{length_with};
ghost use Rattle.lpt_state.specs.Verdicts.{both_ascend, end_after, great_at, is_sealed, lasting_at, received_count, runs_in, sent_count, reading, verdict, StateRefusedBy};

use crate::StateFault;
use crate::found::Found;
use crate::numbers::{great, long, run_from, stands_at, word};
use crate::writing::{config_octets, side_octet};
use lpt_events::{Config, Side};
use lpt_ledger::{Ledger, NameRun};
use lpt_node::Node;
use lpt_packet::crc16;
use std::alloc::{AllocError, Global};

/// How many octets the shortest state has.
const LEAST: usize = 45;

/// Where the runs of a state begin.
const RUNS: usize = 43;

/// Makes an end of octets that are the state of an end of this side: what a restart leaves of that
/// one, so its next boot, within the limits of this configuration. Its timeout, and how many
/// receptions and messages may be open, may be others than before.
///
/// Errors, the first that applies: `Short`, fewer than 45 octets; `Tag`; `Version`; `Length`, the
/// octets aren't as many as its counts of runs say; `Side`, it is the other side's; `Config`, its
/// APID, source, part size or mode is another; `Checksum`; `Boot`, no boot is left; `Order`, the
/// runs of names don't ascend; `Memory`.
pub fn read_state(
    alloc: Global,
    side: Side,
    config: &Config,
    octets: &[u8],
) -> Result<Node, StateFault>
    requires { IsConfig config.now }
    ensures ok { IfOk result (λ n. reading side config.now octets.now ≡ Ok n) }
    ensures side { IfOk result (λ n. n.side ≡ side) }
    ensures config { IfOk result (λ n. n.config ≡ config.now) }
    ensures jobs { IfOk result (λ n. n.at.jobs ≡ no_jobs) }
    ensures refused { IfErr result (StateRefusedBy (reading side config.now octets.now)) }
{
    let found = first_fault(side, config, octets)?;
    match resume(alloc, side, config, &found) {
        Ok(node) => Ok(node),
        Err(AllocError) => Err(StateFault::Memory),
    }
}

// The tests of a state, in their order.
#[tactic(auto, unfolding(crate::specs::Verdicts::verdict))]
fn first_fault<'a>(side: Side, config: &Config, octets: &'a [u8]) -> Result<Found<'a>, StateFault>
    ensures given { Gives result (verdict side config.now octets.now) }
    ensures boot { IfOk result (λ f. f.boot + 1 < 2 ^ 64) }
{
    if octets.len() < LEAST {
        return Err(StateFault::Short);
    }
    if !stands_at(octets, 0, b"LPTS") {
        return Err(StateFault::Tag);
    }
    if octets[4] != 2 {
        return Err(StateFault::Version);
    }
    if !has_its_length(octets) {
        return Err(StateFault::Length);
    }
    if octets[5] != side_octet(side) {
        return Err(StateFault::Side);
    }
    if !stands_at(octets, 6, &config_octets(config)) {
        return Err(StateFault::Config);
    }
    if !is_sealed(octets) {
        return Err(StateFault::Checksum);
    }
    if great(octets, 15) == u64::MAX {
        return Err(StateFault::Boot);
    }
    let found = found_in(octets);
    if !both_ascend(&found) {
        return Err(StateFault::Order);
    }
    Ok(found)
}

// What stands at the places of a state.
fn found_in(octets: &[u8]) -> Found<'_>
    requires { length octets.now ≡ length_with (sent_count octets.now + received_count octets.now) }
    ensures found { state_found result ≡ lasting_at octets.now }
    ensures boot { result.boot ≡ great_at octets.now 15 }
{
    let runs = &octets[RUNS..octets.len() - 2];
    let (sent, received) = runs.split_at(6 * great(octets, 27) as usize);
    Found {
        boot: great(octets, 15),
        clock: long(octets, 23),
        sent,
        received,
    }
}

// Whether there are as many octets as the counts of runs say.
fn has_its_length(octets: &[u8]) -> bool
    requires { 45 ≤ length octets.now }
    ensures { result ≡ (length octets.now
        == length_with (sent_count octets.now + received_count octets.now)) }
{
    let runs = u128::from(great(octets, 27)) + u128::from(great(octets, 35));
    octets.len() as u128 == 45 + 6 * runs
}

// Whether the last two octets are the checksum of those before.
fn is_sealed(octets: &[u8]) -> bool
    requires { 45 ≤ length octets.now }
    ensures { result ≡ is_sealed octets.now }
{
    let end = octets.len() - 2;
    crc16(&octets[..end]) == word(octets, end)
}

// Whether the runs of what was found ascend.
fn both_ascend(state: &Found<'_>) -> bool
    ensures { result ≡ both_ascend (state_found state.now) }
{
    ascends(state.sent) && ascends(state.received)
}

// Whether the runs that octets say ascend.
fn ascends(octets: &[u8]) -> bool
    ensures { result ≡ ascend (runs_in octets.now) }
{
    let mut before = None;
    let mut left = octets;
    while let Some((six, rest)) = left.split_first_chunk::<6>() {
        let this = run_from(six);
        if !goes_on(before, this) {
            return false;
        }
        before = Some(this);
        left = rest;
    }
    true
}

// Whether a run has a name, and stands behind the one before it, if there is one.
fn goes_on(before: Option<NameRun>, this: NameRun) -> bool
    ensures { result ≡ (has_name this && stands before this) }
{
    match before {
        None => this.first <= this.last,
        Some(p) => this.first <= this.last && is_behind(p, this),
    }
}

// Whether a run stands behind another, and doesn't follow it.
fn is_behind(before: NameRun, this: NameRun) -> bool
    ensures { result ≡ is_behind before this }
{
    before.source < this.source
        || (before.source == this.source && u32::from(before.last) + 1 < u32::from(this.first))
}

// The end that a state says. The only error is out of memory.
fn resume(alloc: Global, side: Side, config: &Config, state: &Found<'_>) -> Result<Node, AllocError>
    requires config { IsConfig config.now }
    requires boot { state.now.boot + 1 < 2 ^ 64 }
    ensures { IfOk result (λ n. n ≡ end_after side config.now (state_found state.now)) }
{
    let senders = ledger_closed(alloc, state.sent)?;
    let receivers = ledger_closed(alloc, state.received)?;
    Node::resume(
        alloc,
        side,
        config,
        state.boot + 1,
        state.clock,
        senders,
        receivers,
    )
}

// A ledger in which the names of these runs are closed, and no others in use. The only error is out
// of memory.
fn ledger_closed(alloc: Global, octets: &[u8]) -> Result<Ledger, AllocError>
    ensures names { IfOk result (λ l. l ≡ closed_by (runs_in octets.now)) }
    ensures none_open { IfOk result (λ l. NoneOpen l) }
{
    let mut ledger = Ledger::new(alloc);
    let mut left = octets;
    while let Some((six, rest)) = left.split_first_chunk::<6>() {
        ledger.shut_run(run_from(six))?;
        left = rest;
    }
    Ok(ledger)
}
