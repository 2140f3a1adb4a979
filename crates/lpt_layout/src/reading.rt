//! Reading a packet as a telecommand or as telemetry of a layout.

ghost use Rattle.std.specs.Prelude.{◌≡◌, ◌+◌, ◌/◌, ◌≤◌, length, IfOk, slice_index};
ghost use Rattle.lpt_pus.specs.Messages.{Gives};
ghost use Rattle.lpt_packet.specs.declared.packet.PacketKind.TheVariants.{Tm, Tc};
ghost use Rattle.lpt_layout.specs.Layouts.{version_number, body_at};
ghost use Rattle.lpt_layout.specs.Packets.{fields};
ghost use Rattle.lpt_layout.specs.Messages.{message_said, said_at, IsMessage, message_verdict};

use crate::numbers::number_at;
use crate::{Layout, Message, PacketAs};
use lpt_packet::PacketKind;
use lpt_pus::PusFault;

/// Reads a packet as telemetry of this layout.
///
/// Errors, the first that applies: `WrongType`, a telecommand; `ShortHeader`, fewer octets in the
/// packet's data field than the secondary header has; `PusVersion`, another than the layout's. Any
/// status, any ID, any time and any spare octets are read.
pub fn read_tm_as<'a>(layout: &Layout, packet: &PacketAs<'a>) -> Result<Message<'a>, PusFault>
    // What is read is what the packet is.
    ensures found { IfOk result (λ m. IsMessage layout.now Tm (fields packet.now) (message_said m)) }
    // The fault is the first.
    ensures exact { Gives message_said result (message_verdict layout.now Tm (fields packet.now)) }
{
    read_as(layout, PacketKind::Tm, packet)
}

/// Reads a packet as a telecommand of this layout.
///
/// Errors, the first that applies: `WrongType`, telemetry; `ShortHeader`, fewer octets in the
/// packet's data field than the secondary header has; `PusVersion`, another than the layout's. Any
/// flags, any ID and any spare octets are read.
pub fn read_tc_as<'a>(layout: &Layout, packet: &PacketAs<'a>) -> Result<Message<'a>, PusFault>
    // What is read is what the packet is.
    ensures found { IfOk result (λ m. IsMessage layout.now Tc (fields packet.now) (message_said m)) }
    // The fault is the first.
    ensures exact { Gives message_said result (message_verdict layout.now Tc (fields packet.now)) }
{
    read_as(layout, PacketKind::Tc, packet)
}

// The tests of a message, in their order.
#[tactic(auto, unfolding(crate::specs::Messages::message_verdict))]
fn read_as<'a>(
    layout: &Layout,
    kind: PacketKind,
    packet: &PacketAs<'a>,
) -> Result<Message<'a>, PusFault>
    ensures { Gives message_said result (message_verdict layout.now kind (fields packet.now)) }
{
    if packet.kind != kind {
        return Err(PusFault::WrongType);
    }
    if packet.field.len() < layout.header() {
        return Err(PusFault::ShortHeader);
    }
    if packet.field[0] >> 4 != layout.version.number() {
        return Err(PusFault::PusVersion);
    }
    Ok(message_in(layout, packet))
}

// What stands at the places of a message.
fn message_in<'a>(layout: &Layout, packet: &PacketAs<'a>) -> Message<'a>
    requires { body_at layout.now ≤ length packet.now.field.now }
    ensures { message_said result ≡ said_at layout.now (fields packet.now) }
{
    let field = packet.field;
    let user_at = 3 + layout.counter.octets();
    let time_at = user_at + layout.user.octets();
    let spare_at = time_at + usize::from(layout.time);
    let body_at = spare_at + usize::from(layout.spare);
    Message {
        apid: packet.apid,
        count: packet.count,
        flags: field[0] & 0x0f,
        service: field[1],
        subtype: field[2],
        counter: number_at(layout.counter, field, 3),
        user: number_at(layout.user, field, user_at),
        time: &field[time_at..spare_at],
        spare: &field[spare_at..body_at],
        body: &field[body_at..],
    }
}
