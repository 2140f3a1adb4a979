//! What is wanted of a message, put behind octets.

ghost use Rattle.std.specs.Prelude.{◌≡◌, ◌≤◌, ◌<◌, ◌+◌, ◌%◌, length, IfErr, IfOk};
ghost use Rattle.lpt_packet.specs.Sizes.{longest_packet};
ghost use Rattle.lpt_part.specs.Splitting.{part_count};
ghost use Rattle.lpt_split.specs.Messages.{PutsNumbers, PutsSplit, choice};
ghost use Rattle.lpt_split.specs.Splits.{AreNumbers};

use crate::lists::read_parts;
use crate::packets::{put_packet, put_parts};
use crate::{SplitEnd, Wanted};
use lpt_layout::{LayoutFault, count_as};
use lpt_packet::LONGEST_PACKET;
use std::alloc::{AllocError, Global};

/// The most parts that a list names.
const PARTS: u32 = 65_535;

/// Puts the packets of the parts that are wanted of a message behind octets, in the form that is
/// wanted, if each can be made. Their sequence counts go on from the first, and after 16,383 from
/// 0.
///
/// The answer says what isn't split; any octets stand behind those that were there then. The only
/// error is out of memory.
pub fn put_split(
    alloc: Global,
    wanted: &Wanted<'_>,
    message: &[u8],
    octets: &mut Vec<u8>,
) -> Result<SplitEnd, AllocError>
    ensures { IfOk result (λ end. PutsSplit wanted.now.writing (choice wanted.now) message.now end
        octets.old.items octets.new.items) }
{
    let size = wanted.writing.part_size;
    if message.len() <= size as usize {
        return put_whole(wanted, message, octets);
    }
    if message.len() > LONGEST_PACKET {
        return Ok(SplitEnd::Long);
    }
    let last = count_as(message.len() as u32, size);
    if last > PARTS {
        return Ok(SplitEnd::Many(last));
    }
    match read_parts(alloc, wanted.parts, last)? {
        Some(numbers) => put_numbers(alloc, wanted, message, numbers.as_slice(), octets),
        None => Ok(SplitEnd::NoSuchPart(last)),
    }
}

// Puts a message that isn't split behind octets as it is, if it may go so.
fn put_whole(
    wanted: &Wanted<'_>,
    message: &[u8],
    octets: &mut Vec<u8>,
) -> Result<SplitEnd, AllocError>
    requires { length message.now ≤ wanted.now.writing.part_size }
    ensures { IfOk result (λ end. PutsSplit wanted.now.writing (choice wanted.now) message.now end
        octets.old.items octets.new.items) }
{
    if !wanted.whole || message.is_empty() {
        return Ok(SplitEnd::Short(message.len()));
    }
    put_packet(octets, wanted.writing.form, wanted.writing.clock, message)?;
    Ok(SplitEnd::Written(wanted.first))
}

// Puts the packets of these parts behind octets, if each can be made.
fn put_numbers(
    alloc: Global,
    wanted: &Wanted<'_>,
    message: &[u8],
    numbers: &[u16],
    octets: &mut Vec<u8>,
) -> Result<SplitEnd, AllocError>
    requires long { wanted.now.writing.part_size < length message.now }
    requires short { length message.now ≤ longest_packet }
    requires numbers { AreNumbers (part_count (length message.now) wanted.now.writing.part_size)
        numbers.now }
    ensures { IfOk result (λ end. PutsNumbers wanted.now.writing (choice wanted.now) message.now
        numbers.now end octets.old.items octets.new.items) }
{
    let (writing, first) = (&wanted.writing, wanted.first);
    match put_parts(alloc, writing, wanted.id, message, numbers, first, octets) {
        Ok(()) => Ok(SplitEnd::Written(count_behind(first, numbers.len()))),
        Err(LayoutFault::Unfit) => Ok(SplitEnd::Unfit),
        Err(LayoutFault::TooLong) => Ok(SplitEnd::TooLong),
        Err(LayoutFault::Memory) => Err(AllocError),
    }
}

// The sequence count behind so many packets, of which the first has this one.
fn count_behind(first: u16, packets: usize) -> u16
    requires { first ≤ 16383 }
    ensures behind { result ≡ (first + packets) % 16384 }
    ensures fits { result ≤ 16383 }
{
    (first + (packets % 16_384) as u16) % 16_384
}
