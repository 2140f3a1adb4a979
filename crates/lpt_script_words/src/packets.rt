//! What the lines ask for that speak of packets on the link.

ghost use Rattle.std.specs.Prelude.{◌≡◌, IsSome, IfOk, OnErr};
ghost use Rattle.lpt_script_words.specs.Grammar.{damage_of, deliver_of, lane_and_packet_of, lose_of, pass_of, take_of};
ghost use Rattle.lpt_script_words.specs.Words.{words};

use crate::grammar::Command;
use crate::names::{read_direction, read_lane, read_packet_number};
use crate::numbers::read_hex;
use crate::words::{one_word, two_words};
use lpt_events::{Event, Lane};
use std::alloc::{AllocError, Global};

// The words after `lose`.
pub(crate) fn read_lose(rest: &[u8]) -> Option<Command>
    ensures { result ≡ lose_of (words rest.now) }
{
    let number = read_packet_number(one_word(rest)?)?;
    Some(Command::Event(Event::Lose(number)))
}

// The words after `damage`.
pub(crate) fn read_damage(alloc: Global, rest: &[u8]) -> Result<Option<Command>, AllocError>
    ensures says { IfOk result (λ r. r ≡ damage_of (words rest.now)) }
    ensures asked { OnErr result (IsSome (damage_of (words rest.now))) }
{
    let Some((direction, octets)) = two_words(rest) else {
        return Ok(None);
    };
    let Some(direction) = read_direction(direction) else {
        return Ok(None);
    };
    let Some(octets) = read_hex(alloc, octets)? else {
        return Ok(None);
    };
    Ok(Some(Command::Event(Event::Damage(direction, octets))))
}

// The words after `take`.
pub(crate) fn read_take(rest: &[u8]) -> Option<Command>
    ensures { result ≡ take_of (words rest.now) }
{
    let (lane, packet) = read_lane_and_packet(rest)?;
    Some(Command::Event(Event::Take(lane, packet)))
}

// The words after `deliver`.
pub(crate) fn read_deliver(rest: &[u8]) -> Option<Command>
    ensures { result ≡ deliver_of (words rest.now) }
{
    let lane = read_lane(one_word(rest)?)?;
    Some(Command::Event(Event::Deliver(lane)))
}

// The words after `pass`.
pub(crate) fn read_pass(rest: &[u8]) -> Option<Command>
    ensures { result ≡ pass_of (words rest.now) }
{
    let (lane, packet) = read_lane_and_packet(rest)?;
    Some(Command::Pass(lane, packet))
}

// A lane and the number of a packet, and no further word.
#[inline(always)]
fn read_lane_and_packet(rest: &[u8]) -> Option<(Lane, u64)>
    ensures { result ≡ lane_and_packet_of (words rest.now) }
{
    let (lane, packet) = two_words(rest)?;
    read_lane(lane).zip(read_packet_number(packet))
}
