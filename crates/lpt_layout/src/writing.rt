//! Writing a telecommand or telemetry of a layout as a packet's octets.

ghost use Rattle.std.specs.Prelude.{◌≡◌, ◌+◌, ◌≤◌, ◌↔◌, ◌++◌, length, IfOk, OnOk, IsTrue};
ghost use Rattle.lpt_packet.specs.declared.packet.PacketKind.TheVariants.{Tm, Tc};
ghost use Rattle.lpt_layout.specs.Layouts.{trailer, body_at};
ghost use Rattle.lpt_pus.specs.Ranges.{TcFits};
ghost use Rattle.lpt_layout.specs.Messages.{message_said, HeadFits, field_of};
ghost use Rattle.lpt_layout.specs.Packets.{packet_closed};
ghost use Rattle.lpt_layout.specs.Writes.{octets_as, Writes};

use crate::numbers::{fits, octets_of};
use crate::{Layout, LayoutFault, Message};
use lpt_packet::{Octets, PRIMARY_HEADER, PacketKind, crc16, primary_header};
use std::alloc::{AllocError, Global};

/// The most octets that can stand behind a primary header.
const MOST: usize = 65_536;

/// The octets of a whole packet of telemetry of this layout.
///
/// Errors, the first that applies, both before any memory is taken: `Unfit` if a field is out of
/// its range or of another width than the layout has it; `TooLong` if the packet would have more
/// than 65,542 octets. Then `Memory` if memory runs out.
pub fn write_tm_as(
    alloc: Global,
    layout: &Layout,
    message: &Message<'_>,
) -> Result<Octets, LayoutFault>
    ensures { Writes (HeadFits layout.now (message_said message.now))
        (octets_as layout.now Tm (message_said message.now)) result }
{
    write_as(alloc, layout, PacketKind::Tm, message)
}

/// The octets of a whole telecommand of this layout.
///
/// Errors, the first that applies, both before any memory is taken: `Unfit` if a field is out of
/// its range or of another width than the layout has it; `TooLong` if the packet would have more
/// than 65,542 octets. Then `Memory` if memory runs out.
pub fn write_tc_as(
    alloc: Global,
    layout: &Layout,
    message: &Message<'_>,
) -> Result<Octets, LayoutFault>
    ensures { Writes (HeadFits layout.now (message_said message.now))
        (octets_as layout.now Tc (message_said message.now)) result }
{
    write_as(alloc, layout, PacketKind::Tc, message)
}

// The octets of a message's packet, if its fields fit.
fn write_as(
    alloc: Global,
    layout: &Layout,
    kind: PacketKind,
    message: &Message<'_>,
) -> Result<Octets, LayoutFault>
    ensures { Writes (HeadFits layout.now (message_said message.now))
        (octets_as layout.now kind (message_said message.now)) result }
{
    if !head_fits(layout, message) {
        return Err(LayoutFault::Unfit);
    }
    let len = layout.header() + message.body.len() + layout.control();
    if len > MOST {
        return Err(LayoutFault::TooLong);
    }
    message_octets(alloc, layout, kind, message, len).map_err(|_| LayoutFault::Memory)
}

// Whether each field is in its range, and as wide as the layout has it.
fn head_fits(layout: &Layout, message: &Message<'_>) -> bool
    ensures { IsTrue result ↔ HeadFits layout.now (message_said message.now) }
{
    let _octets = (message.service, message.subtype);
    in_range(message.apid, message.count, message.flags)
        && fits(layout.counter, message.counter)
        && fits(layout.user, message.user)
        && message.time.len() == usize::from(layout.time)
        && message.spare.len() == usize::from(layout.spare)
}

// Whether an APID, a sequence count and four bits are in their ranges.
fn in_range(apid: u16, count: u16, flags: u8) -> bool
    ensures { IsTrue result ↔ TcFits apid count flags }
{
    apid <= 2046 && count <= 16383 && flags <= 15
}

// The octets of a message's packet, of which so many stand behind the primary header.
fn message_octets(
    alloc: Global,
    layout: &Layout,
    kind: PacketKind,
    message: &Message<'_>,
    len: usize,
) -> Result<Octets, AllocError>
    requires head { HeadFits layout.now (message_said message.now) }
    requires len { len ≡ body_at layout.now + length message.now.body.now
        + trailer layout.now.has_checksum }
    requires long { len ≤ 65536 }
    ensures { IfOk result (λ o. o ≡ octets_as layout.now kind (message_said message.now)) }
{
    let mut octets = Vec::with_capacity(alloc, PRIMARY_HEADER + len)?;
    let primary = primary_header(kind, message.apid, message.count, len - 2);
    octets.extend_from_slice(&primary)?;
    push_field(&mut octets, layout, message)?;
    packet_closed(octets, layout.has_checksum)
}

// Octets, with their packet error control behind them if there is one.
fn packet_closed(mut octets: Vec<u8>, has_checksum: bool) -> Result<Octets, AllocError>
    ensures { IfOk result (λ o. o ≡ packet_closed has_checksum octets.items) }
{
    if has_checksum {
        let checksum = crc16(&octets);
        octets.extend_from_slice(&checksum.to_be_bytes())?;
    }
    Ok(Octets::from_vec(octets))
}

// Puts a message's data field behind octets.
fn push_field(
    octets: &mut Vec<u8>,
    layout: &Layout,
    message: &Message<'_>,
) -> Result<(), AllocError>
    requires { HeadFits layout.now (message_said message.now) }
    ensures { OnOk result (octets.new.items
        ≡ octets.old.items ++ field_of layout.now (message_said message.now)) }
{
    let first = 16 * layout.version.number() + message.flags;
    let counter = message.counter.to_be_bytes();
    let user = message.user.to_be_bytes();
    octets.extend_from_slice(&[first, message.service, message.subtype])?;
    octets.extend_from_slice(octets_of(layout.counter, &counter))?;
    octets.extend_from_slice(octets_of(layout.user, &user))?;
    octets.extend_from_slice(message.time)?;
    octets.extend_from_slice(message.spare)?;
    octets.extend_from_slice(message.body)?;
    Ok(())
}
