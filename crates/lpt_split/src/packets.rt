//! The packets of a message's parts, one behind the other.

ghost use Rattle.std.specs.Prelude.{◌≡◌, ◌<◌, ◌≤◌, ◌++◌, length, IfErr, IfOk, OnOk};
ghost use Rattle.lpt_packet.specs.Sizes.{longest_packet};
ghost use Rattle.lpt_part.specs.Splitting.{part_count};
ghost use Rattle.lpt_split.specs.Forms.{front_in, packet_in, packets_in};
ghost use Rattle.lpt_split.specs.Packets.{AreMade, FirstFault, packets_of};
ghost use Rattle.lpt_split.specs.Splits.{AreNumbers, next_count};

use crate::packet::part_packet;
use crate::{Form, Writing};
use lpt_capture::{capture_header, record_header};
use lpt_layout::{LayoutFault, part_at_as};
use std::alloc::{AllocError, Global};

/// What stands in front of the packets in this form. The only error is out of memory.
pub fn front(alloc: Global, form: Form) -> Result<Vec<u8>, AllocError>
    ensures { IfOk result (λ o. o.items ≡ front_in form) }
{
    let mut octets = Vec::new(alloc);
    match form {
        Form::Plain => {}
        Form::Capture => octets.extend_from_slice(&capture_header())?,
    }
    Ok(octets)
}

// Puts the packets of these parts of a message behind octets, in the form that is wanted. Their
// sequence counts go from `first` on, and after 16,383 from 0 on.
//
// Errors: why the first of them can't be made that can't; `Memory`. It leaves any octets.
pub(crate) fn put_parts(
    alloc: Global,
    writing: &Writing<'_>,
    id: u32,
    message: &[u8],
    numbers: &[u16],
    first: u16,
    octets: &mut Vec<u8>,
) -> Result<(), LayoutFault>
    requires long { writing.now.part_size < length message.now }
    requires short { length message.now ≤ longest_packet }
    requires numbers { AreNumbers (part_count (length message.now) writing.now.part_size)
        numbers.now }
    requires first { first ≤ 16383 }
    ensures octets { OnOk result (octets.new.items ≡ octets.old.items
        ++ packets_in writing.now.form writing.now.clock
        (packets_of writing.now id message.now first numbers.now)) }
    ensures made { OnOk result (AreMade writing.now id message.now first numbers.now) }
    ensures fault { IfErr result (λ e.
        FirstFault writing.now id message.now first numbers.now e) }
{
    let mut count = first;
    for number in numbers {
        let part = part_at_as(message, writing.part_size, id, u32::from(*number));
        let packet = part_packet(alloc, writing, count, &part)?;
        match put_packet(octets, writing.form, writing.clock, packet.as_slice()) {
            Ok(()) => {}
            Err(_) => return Err(LayoutFault::Memory),
        }
        count = next_count(count);
    }
    Ok(())
}

// Puts a packet behind octets in this form, with this time. The only error is out of memory.
pub(crate) fn put_packet(
    octets: &mut Vec<u8>,
    form: Form,
    time: u32,
    packet: &[u8],
) -> Result<(), AllocError>
    requires { length packet.now ≤ longest_packet }
    ensures { OnOk result (octets.new.items
        ≡ octets.old.items ++ packet_in form time packet.now) }
{
    match form {
        Form::Plain => {}
        Form::Capture => octets.extend_from_slice(&record_header(time, packet.len() as u32))?,
    }
    octets.extend_from_slice(packet)
}

// The sequence count after this one.
fn next_count(count: u16) -> u16
    requires { count ≤ 16383 }
    ensures next { result ≡ next_count count }
    ensures fits { result ≤ 16383 }
{
    (count + 1) % 16384
}
