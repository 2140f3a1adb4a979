//! The state of an end as octets.

ghost use Rattle.std.specs.Prelude.{◌≡◌, ◌+◌, ◌*◌, ◌≤◌, ◌^◌, ◌++◌, length, drop, OnOk, OnErr};
ghost use Rattle.lpt_ledger.specs.Runs.{runs_of};
ghost use Rattle.lpt_state.specs.Lastings.{lasting_of, IsEnd};
ghost use Rattle.lpt_state.specs.Spellings.{config_octets, head_octets, mode_octet, number_octets, run_octets, runs_octets, side_octet, state_spelled, state_unsealed};

use lpt_events::{Config, Side};
use lpt_ledger::{Ledger, NameRun};
use lpt_node::Node;
use lpt_packet::crc16;
use lpt_part::Mode;
use std::alloc::AllocError;

// How many octets stand before the runs of a state.
const RUNS: usize = 43;

// How many of these the side and the configuration have, with what is before them.
const HEAD: usize = 15;

/// Appends the state of an end: what of it outlasts a restart. The only error is out of memory, and
/// then nothing is appended.
pub fn write_state(node: &Node, out: &mut Vec<u8>) -> Result<(), AllocError>
    ensures ok { OnOk result (out.new.items ≡ out.old.items ++ state_spelled node.now) }
    ensures end { OnOk result (IsEnd node.now) }
    ensures err { OnErr result (out.new.items ≡ out.old.items) }
{
    let before = out.len();
    out.resize(before + state_len(node), 0)?;
    let (_, state) = out.split_at_mut(before);
    write_state_into(node, state);
    Ok(())
}

/// How many octets the state of an end has. It takes no memory.
pub fn state_len(node: &Node) -> usize
    ensures len { result ≡ length (state_spelled node.now) }
    ensures few { result ≤ 2 ^ 36 }
    ensures end { IsEnd node.now }
{
    let (_config, _boot, _clock) = (node.config(), node.boot(), node.clock());
    45 + 6 * (node.senders().run_count() + node.receivers().run_count())
}

/// Writes the state of an end to the front of a buffer that has room for it. It takes no memory.
pub fn write_state_into(node: &Node, out: &mut [u8])
    requires { length (state_spelled node.now) ≤ length out.old }
    ensures { out.new ≡ state_spelled node.now ++ drop (length (state_spelled node.now)) out.old }
{
    let end = put_unsealed(node, out);
    let (before, behind) = out.split_at_mut(end);
    let (seal, _) = behind.split_at_mut(2);
    seal.copy_from_slice(&crc16(before).to_be_bytes());
}

// Writes what stands before the checksum to the front of a buffer that has room for it, and answers
// how many octets that is.
fn put_unsealed(node: &Node, out: &mut [u8]) -> usize
    requires { length (state_unsealed node.now) ≤ length out.old }
    ensures len { result ≡ length (state_unsealed node.now) }
    ensures octets { out.new ≡ state_unsealed node.now
        ++ drop (length (state_unsealed node.now)) out.old }
{
    let (front, runs) = out.split_at_mut(RUNS);
    let (sent, received) = put_both(node, runs);
    let (head, numbers) = front.split_at_mut(HEAD);
    put_head(head, node.side(), node.config());
    put_numbers(numbers, node.boot(), node.clock(), sent, received);
    RUNS + 6 * (sent + received)
}

// Writes the runs of both ledgers, and answers how many there are.
fn put_both(node: &Node, out: &mut [u8]) -> (usize, usize)
    requires { 6 * (length (lasting_of node.now.at).sent + length (lasting_of node.now.at).received)
        ≤ length out.old }
    ensures sent { result.0 ≡ length (lasting_of node.now.at).sent }
    ensures received { result.1 ≡ length (lasting_of node.now.at).received }
    ensures octets { out.new ≡ (runs_octets (lasting_of node.now.at).sent
        ++ runs_octets (lasting_of node.now.at).received)
        ++ drop (6 * (length (lasting_of node.now.at).sent
        + length (lasting_of node.now.at).received)) out.old }
{
    let sent = put_runs(node.senders(), out);
    let (_, behind) = out.split_at_mut(6 * sent);
    let received = put_runs(node.receivers(), behind);
    (sent, received)
}

// Writes the runs of a ledger to the front of a buffer that has room for them, and answers how many
// there are.
fn put_runs(ledger: &Ledger, out: &mut [u8]) -> usize
    requires { 6 * length (runs_of ledger.now) ≤ length out.old }
    ensures count { result ≡ length (runs_of ledger.now) }
    ensures octets { out.new ≡ runs_octets (runs_of ledger.now)
        ++ drop (6 * length (runs_of ledger.now)) out.old }
{
    let mut count = 0;
    for run in ledger.runs() {
        out[6 * count..6 * count + 6].copy_from_slice(&run_octets(run));
        count += 1;
    }
    count
}

// Writes what stands first in each state of such an end.
fn put_head(out: &mut [u8], side: Side, config: &Config)
    requires { length out.old ≡ 15 }
    ensures { out.new ≡ head_octets side config.now }
{
    let (known, rest) = out.split_at_mut(6);
    known.copy_from_slice(&[b'L', b'P', b'T', b'S', 2, side_octet(side)]);
    rest.copy_from_slice(&config_octets(config));
}

/// The octets of what of its configuration an end is bound to.
pub(crate) fn config_octets(config: &Config) -> [u8; 9]
    ensures { result ≡ config_octets config.now }
{
    let [a, p] = config.apid.to_be_bytes();
    let [s, o] = config.source.to_be_bytes();
    let [b, c, d, e] = config.part_size.to_be_bytes();
    let mode = mode_octet(config.mode);
    [a, p, s, o, b, c, d, e, mode]
}

/// The octet of a side.
pub(crate) fn side_octet(side: Side) -> u8
    ensures { result ≡ side_octet side }
{
    match side {
        Side::Ground => 0,
        Side::Craft => 1,
    }
}

// The octet of a mode.
fn mode_octet(mode: Mode) -> u8
    ensures { result ≡ mode_octet mode }
{
    match mode {
        Mode::Any => 0,
        Mode::Strict => 1,
    }
}

// Writes the numbers that stand behind the configuration.
fn put_numbers(out: &mut [u8], boot: u64, clock: u32, sent: usize, received: usize)
    requires { length out.old ≡ 28 }
    ensures { out.new ≡ number_octets boot clock sent received }
{
    let (first, rest) = out.split_at_mut(8);
    first.copy_from_slice(&boot.to_be_bytes());
    let (second, rest) = rest.split_at_mut(4);
    second.copy_from_slice(&clock.to_be_bytes());
    let (third, fourth) = rest.split_at_mut(8);
    third.copy_from_slice(&sent.to_be_bytes());
    fourth.copy_from_slice(&received.to_be_bytes());
}

// The octets of a run.
fn run_octets(run: NameRun) -> [u8; 6]
    ensures { result ≡ run_octets run }
{
    let [a, b] = run.source.to_be_bytes();
    let [c, d] = run.first.to_be_bytes();
    let [e, f] = run.last.to_be_bytes();
    [a, b, c, d, e, f]
}
