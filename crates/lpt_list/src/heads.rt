//! What octets say, as items that are added to a line.

ghost use Rattle.std.specs.Prelude.{◌≡◌, ◌++◌, Err, IfOk, OnOk};
ghost use Rattle.std.specs.String.{string_bytes};
ghost use Rattle.lpt_layout.specs.Messages.{message_verdict, message_said};
ghost use Rattle.lpt_layout.specs.Packets.{Gives, fields, verdict_as};
ghost use Rattle.lpt_carried.specs.Layouts.{SizeFits, SizesFit};
ghost use Rattle.lpt_list.specs.Items.{fault_items, idle_items, items_text, part_fields, unread_items};
ghost use Rattle.lpt_list.specs.Said.{carried_as, field_as, layout_in, message_as, other_as, packet_as, part_as, said_as};

use crate::Form;
use crate::areas::add_areas;
use crate::choice::{direction_of, kind_in};
use crate::headers::{add_message, add_primary};
use crate::items::{add_number, add_word};
use crate::parts::part_at;
use crate::reports::add_reported;
use crate::segments::print_refused;
use lpt_carried::{Layouts, Tailored};
use lpt_events::part_kind;
use lpt_layout::{Message, PacketAs, SeenAs, read_tc_as, read_tm_as};
use lpt_packet::{Direction, PacketFault, PacketKind};
use lpt_part::Kind;
use lpt_script_text::read_areas;
use std::alloc::{AllocError, Global};

// Adds what octets say by the layout of their packet type, which are read as this.
pub(crate) fn add_said(
    alloc: Global,
    text: &mut String,
    form: Form,
    layouts: &Layouts,
    octets: &[u8],
    seen: &Result<SeenAs<'_>, PacketFault>,
) -> Result<(), AllocError>
    requires sizes { SizesFit layouts.now }
    requires seen { Gives seen.now
        (verdict_as (layout_in layouts.now octets.now).packets.has_checksum octets.now) }
    ensures { OnOk result (string_bytes text.new
        ≡ string_bytes text.old ++ items_text form (said_as layouts.now octets.now)) }
{
    match seen {
        Ok(SeenAs::Idle) => add_idle(text, form),
        Ok(SeenAs::Packet(packet)) => {
            let tailored = layouts.tailored_in(direction_of(kind_in(octets)));
            add_packet(alloc, text, form, tailored, packet)
        }
        Err(fault) => text.push_str(print_refused(alloc, form, octets, *fault)?.as_str()),
    }
}

// Adds that a packet is idle.
fn add_idle(text: &mut String, form: Form) -> Result<(), AllocError>
    ensures { OnOk result (string_bytes text.new
        ≡ string_bytes text.old ++ items_text form idle_items) }
{
    match form {
        Form::Text => text.push_str(" idle"),
        Form::Json => text.push_str(",\"packet_type\":\"idle\""),
    }
}

// Adds what a packet says: its primary header, and what is behind it.
#[tactic(auto, using(crate::proofs::ItemLemmas::behind))]
fn add_packet(
    alloc: Global,
    text: &mut String,
    form: Form,
    tailored: &Tailored,
    packet: &PacketAs<'_>,
) -> Result<(), AllocError>
    requires { SizeFits tailored.now }
    ensures { OnOk result (string_bytes text.new
        ≡ string_bytes text.old ++ items_text form (packet_as tailored.now (fields packet.now))) }
{
    add_primary(text, form, packet.kind, packet.apid, packet.count)?;
    add_field(alloc, text, form, tailored, packet)
}

// Adds what is behind it, by its type.
fn add_field(
    alloc: Global,
    text: &mut String,
    form: Form,
    tailored: &Tailored,
    packet: &PacketAs<'_>,
) -> Result<(), AllocError>
    requires { SizeFits tailored.now }
    ensures { OnOk result (string_bytes text.new ≡ string_bytes text.old
        ++ items_text form (field_as tailored.now packet.now.kind
        (message_verdict tailored.now.packets packet.now.kind (fields packet.now)))) }
{
    let kind = packet.kind;
    let read = match kind {
        PacketKind::Tc => read_tc_as(&tailored.packets, packet),
        PacketKind::Tm => read_tm_as(&tailored.packets, packet),
    };
    match read {
        Ok(message) => add_read(alloc, text, form, tailored, kind, &message),
        Err(fault) => add_fault(text, form, fault.code(), fault.name()),
    }
}

// Adds what a message says: its secondary header, and what it carries.
#[tactic(auto, using(crate::proofs::ItemLemmas::behind))]
fn add_read(
    alloc: Global,
    text: &mut String,
    form: Form,
    tailored: &Tailored,
    kind: PacketKind,
    message: &Message<'_>,
) -> Result<(), AllocError>
    requires { SizeFits tailored.now }
    ensures { OnOk result (string_bytes text.new ≡ string_bytes text.old
        ++ items_text form (message_as tailored.now kind (message_said message.now))) }
{
    add_message(alloc, text, form, tailored, kind, message)?;
    add_carried(alloc, text, form, tailored, kind, message)
}

// Adds the part, the request or the report that it carries, if it carries one.
fn add_carried(
    alloc: Global,
    text: &mut String,
    form: Form,
    tailored: &Tailored,
    kind: PacketKind,
    message: &Message<'_>,
) -> Result<(), AllocError>
    requires { SizeFits tailored.now }
    ensures { OnOk result (string_bytes text.new ≡ string_bytes text.old
        ++ items_text form (carried_as tailored.now kind (message_said message.now))) }
{
    match part_kind(direction_of(kind), message.service, message.subtype) {
        Some(part) => add_part(text, form, tailored, part, message.body),
        None => add_other(alloc, text, form, kind, message),
    }
}

// Adds the part of this kind that a body is, or that it isn't read as one.
fn add_part(
    text: &mut String,
    form: Form,
    tailored: &Tailored,
    kind: Kind,
    body: &[u8],
) -> Result<(), AllocError>
    requires { SizeFits tailored.now }
    ensures { OnOk result (string_bytes text.new ≡ string_bytes text.old
        ++ items_text form (part_as tailored.now body.now kind)) }
{
    match part_at(tailored, kind, body) {
        Some(part) => {
            let len = part.octets.len();
            add_part_fields(text, form, part.kind, part.id, part.number, len)
        }
        None => {
            let len = body.len().saturating_sub(tailored.parts.header());
            add_unread(text, form, len)
        }
    }
}

// Adds the request or the report that a message is which carries no part, if it is one.
fn add_other(
    alloc: Global,
    text: &mut String,
    form: Form,
    kind: PacketKind,
    message: &Message<'_>,
) -> Result<(), AllocError>
    ensures { OnOk result (string_bytes text.new ≡ string_bytes text.old
        ++ items_text form (other_as kind (message_said message.now))) }
{
    let (service, subtype) = (message.service, message.subtype);
    match kind {
        PacketKind::Tc => add_areas(
            text,
            form,
            read_areas(Direction::Up, service, subtype, message.body),
        ),
        PacketKind::Tm => add_reported(alloc, text, form, service, subtype, message.body),
    }
}

/// The first test that octets fail. The only error is out of memory.
pub fn print_fault(alloc: Global, form: Form, code: u16, name: &str) -> Result<String, AllocError>
    ensures { IfOk result (λ t. string_bytes t ≡ items_text form (fault_items code name.now)) }
{
    let mut text = String::new(alloc);
    add_fault(&mut text, form, code, name)?;
    Ok(text)
}

// Adds the first test that octets fail.
fn add_fault(text: &mut String, form: Form, code: u16, name: &str) -> Result<(), AllocError>
    ensures { OnOk result (string_bytes text.new
        ≡ string_bytes text.old ++ items_text form (fault_items code name.now)) }
{
    match form {
        Form::Text => write!(text, " fault {code} {name}"),
        Form::Json => write!(text, ",\"fault_code\":{code},\"fault\":\"{name}\""),
    }
}

// Adds a part of this kind, identifier and number, and how many octets it has.
fn add_part_fields(
    text: &mut String,
    form: Form,
    kind: Kind,
    id: u32,
    number: u32,
    octets: usize,
) -> Result<(), AllocError>
    ensures { OnOk result (string_bytes text.new
        ≡ string_bytes text.old ++ items_text form (part_fields kind id number octets)) }
{
    let name = "large_message_transaction_identifier";
    add_word(text, form, "part", kind.word())?;
    add_number(text, form, "id", name, id as u64)?;
    add_number(text, form, "number", "part_sequence_number", number as u64)?;
    add_number(text, form, "octets", "part_octets", octets as u64)
}

// Adds that a part of so many octets isn't read.
#[tactic(auto, using(crate::proofs::ItemLemmas::behind))]
fn add_unread(text: &mut String, form: Form, octets: usize) -> Result<(), AllocError>
    ensures { OnOk result (string_bytes text.new
        ≡ string_bytes text.old ++ items_text form (unread_items octets)) }
{
    add_word(text, form, "part", "unread")?;
    add_number(text, form, "octets", "part_octets", octets as u64)
}
