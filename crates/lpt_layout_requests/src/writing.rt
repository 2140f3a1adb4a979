//! A request written as a telecommand of a layout.

ghost use Rattle.std.specs.Prelude.{◌≡◌, ◌≤◌, length, OnOk};
ghost use Rattle.lpt_layout.specs.Messages.{HeadFits};
ghost use Rattle.lpt_layout.specs.Writes.{Writes, octets_as};
ghost use Rattle.lpt_memory.specs.Seen.{body_of};
ghost use Rattle.lpt_packet.specs.declared.packet.PacketKind.TheVariants.{Tc};
ghost use Rattle.lpt_layout_requests.specs.Meanings.{BodyMeans};
ghost use Rattle.lpt_layout_requests.specs.Packets.{WritesRequest, own_said, source_in};

use crate::RequestFault;
use lpt_layout::{Layout, LayoutFault, Message, Width, write_tc_as};
use lpt_packet::{ERROR_CONTROL, Octets, PRIMARY_HEADER};
use lpt_pus::laws::octets_are_read_again;
use lpt_pus::{AckFlags, TC_HEADER};
use lpt_requests::{Request, write_request};
use std::alloc::Global;

/// Where the service type and the message subtype stand in a telecommand of the profile.
const SERVICE: usize = 7;

const SUBTYPE: usize = 8;

/// The octets of a telecommand of the profile before its body.
const HEADERS: usize = PRIMARY_HEADER + TC_HEADER;

/// The packet of a request to a memory, as a layout has telecommands: of this APID (0 to 2046),
/// source, sequence count (0 to 16,383) and acknowledgement flags. Without a field for it, the
/// source is ignored; spare octets are 0. The body is that of `lpt_requests::write_request`.
///
/// Errors, the first that applies: a fault of that function; `Unfit` if the source is too great for
/// the layout; `TooLong` if the packet would have more than 65,542 octets; `Memory`.
pub fn write_request_as(
    alloc: Global,
    layout: &Layout,
    apid: u16,
    source: u32,
    count: u16,
    flags: AckFlags,
    request: &Request,
) -> Result<Octets, RequestFault>
    requires apid { apid ≤ 2046 }
    requires count { count ≤ 16383 }
    ensures written { WritesRequest layout.now apid source count flags request.now result }

    // What stands in its body means that request, in memories where it fits.
    ensures means { OnOk result (BodyMeans request.now) }
{
    octets_are_read_again();
    // The body is the same in each layout, and stands in the profile's packet.
    let own = write_request(alloc, apid, 0, count, flags, request)?;
    let packet = put_as(
        alloc,
        layout,
        apid,
        source,
        count,
        flags.bits(),
        own.as_slice(),
    );
    drop(own);
    Ok(packet?)
}

// The packet of a layout with what stands in this one of the profile.
fn put_as(
    alloc: Global,
    layout: &Layout,
    apid: u16,
    source: u32,
    count: u16,
    flags: u8,
    own: &[u8],
) -> Result<Octets, LayoutFault>
    requires { 13 ≤ length own.now }
    ensures { Writes (HeadFits layout.now (own_said layout.now apid source count flags own.now))
        (octets_as layout.now Tc (own_said layout.now apid source count flags own.now)) result }
{
    let zeros = [0; 255];
    let (time, spare) = (usize::from(layout.time), usize::from(layout.spare));
    let message = Message {
        apid,
        count,
        flags,
        service: own[SERVICE],
        subtype: own[SUBTYPE],
        counter: 0,
        user: source_in(layout.user, source),
        time: &zeros[..time],
        spare: &zeros[..spare],
        body: own_body(own),
    };
    write_tc_as(alloc, layout, &message)
}

// A source, if a field of this width is for it.
fn source_in(width: Width, source: u32) -> u32
    ensures { result ≡ source_in width source }
{
    match width {
        Width::Absent => 0,
        _ => source,
    }
}

// What stands where a telecommand of the profile has its body.
fn own_body(own: &[u8]) -> &[u8]
    requires { 13 ≤ length own.now }
    ensures { result.now ≡ body_of own.now }
{
    let end = own.len() - ERROR_CONTROL;
    &own[..end][HEADERS..]
}
