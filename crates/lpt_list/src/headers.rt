//! What a packet's headers say, as items that are added to a line.

ghost use Rattle.std.specs.Prelude.{◌≡◌, ◌++◌, [], IfOk, OnOk, Some};
ghost use Rattle.std.specs.String.{string_bytes};
ghost use Rattle.lpt_packet.specs.Packets.{fields_of};
ghost use Rattle.lpt_layout.specs.Messages.{message_said};
ghost use Rattle.lpt_carried.specs.Times.{time_text};
ghost use Rattle.lpt_list.specs.Items.{items_text, primary_items, type_text};
ghost use Rattle.lpt_list.specs.Said.{date_items, head_items, message_items, number_items, octet_items, octets_items, plain_items, short_number, time_items, user_items, width_items};

use crate::Form;
use crate::items::{add_named, add_number, add_word};
use lpt_carried::{Tailored, TimeCode, time_text};
use lpt_layout::{Layout, Message, Width};
use lpt_packet::PacketKind;
use std::alloc::{AllocError, Global};

/// What a primary header of this type, APID and sequence count says. The only error is out of
/// memory.
pub fn print_primary(
    alloc: Global,
    form: Form,
    kind: PacketKind,
    apid: u16,
    count: u16,
) -> Result<String, AllocError>
    ensures { IfOk result (λ t. string_bytes t
        ≡ items_text form (primary_items (fields_of kind apid count []))) }
{
    let mut text = String::new(alloc);
    add_primary(&mut text, form, kind, apid, count)?;
    Ok(text)
}

// Adds what a primary header says.
pub(crate) fn add_primary(
    text: &mut String,
    form: Form,
    kind: PacketKind,
    apid: u16,
    count: u16,
) -> Result<(), AllocError>
    ensures { OnOk result (string_bytes text.new
        ≡ string_bytes text.old ++ items_text form (primary_items (fields_of kind apid count []))) }
{
    add_named(text, form, "packet_type", type_word(kind))?;
    add_number(text, form, "apid", "application_process_id", apid as u64)?;
    add_number(text, form, "count", "packet_sequence_count", count as u64)
}

// Adds what the secondary header of a message of this type says.
#[tactic(auto, using(crate::proofs::ItemLemmas::behind))]
pub(crate) fn add_message(
    alloc: Global,
    text: &mut String,
    form: Form,
    tailored: &Tailored,
    kind: PacketKind,
    message: &Message<'_>,
) -> Result<(), AllocError>
    ensures { OnOk result (string_bytes text.new ≡ string_bytes text.old
        ++ items_text form (message_items tailored.now kind (message_said message.now))) }
{
    add_front(text, form, kind, message)?;
    add_numbers(text, form, &tailored.packets, kind, message)?;
    add_octet_fields(alloc, text, form, tailored.time, message)
}

// Adds its counter, and its source or destination, if there are any.
#[tactic(auto, using(crate::proofs::ItemLemmas::behind))]
fn add_numbers(
    text: &mut String,
    form: Form,
    layout: &Layout,
    kind: PacketKind,
    message: &Message<'_>,
) -> Result<(), AllocError>
    ensures { OnOk result (string_bytes text.new ≡ string_bytes text.old
        ++ items_text form (number_items layout.now kind (message_said message.now))) }
{
    let (word, name) = ("counter", "message_type_counter");
    add_width(text, form, layout.counter, word, name, message.counter)?;
    add_user(text, form, layout.user, kind, message.user)
}

// Adds its time and its spare octets, if there are any.
#[tactic(auto, using(crate::proofs::ItemLemmas::behind))]
fn add_octet_fields(
    alloc: Global,
    text: &mut String,
    form: Form,
    code: Option<TimeCode>,
    message: &Message<'_>,
) -> Result<(), AllocError>
    ensures { OnOk result (string_bytes text.new ≡ string_bytes text.old
        ++ items_text form (octet_items code (message_said message.now))) }
{
    add_time(alloc, text, form, code, message.time)?;
    add_octets(alloc, text, form, "spare", message.spare)
}

// Adds its first items: flags or status, and the message type.
fn add_front(
    text: &mut String,
    form: Form,
    kind: PacketKind,
    message: &Message<'_>,
) -> Result<(), AllocError>
    ensures { OnOk result (string_bytes text.new ≡ string_bytes text.old
        ++ items_text form (head_items kind (message_said message.now))) }
{
    match kind {
        PacketKind::Tc => add_flags(text, form, message),
        PacketKind::Tm => add_status(text, form, message),
    }
}

// Adds those of a telecommand.
fn add_flags(text: &mut String, form: Form, message: &Message<'_>) -> Result<(), AllocError>
    ensures { OnOk result (string_bytes text.new ≡ string_bytes text.old
        ++ items_text form (head_items PacketKind.Tc (message_said message.now))) }
{
    let (flags, service, subtype) = (message.flags, message.service, message.subtype);
    add_number(text, form, "flags", "acknowledgement_flags", flags as u64)?;
    add_number(text, form, "service", "service_type", service as u64)?;
    add_number(text, form, "subtype", "message_subtype", subtype as u64)
}

// Adds those of telemetry.
fn add_status(text: &mut String, form: Form, message: &Message<'_>) -> Result<(), AllocError>
    ensures { OnOk result (string_bytes text.new ≡ string_bytes text.old
        ++ items_text form (head_items PacketKind.Tm (message_said message.now))) }
{
    let (status, service, subtype) = (message.flags, message.service, message.subtype);
    add_number(
        text,
        form,
        "status",
        "spacecraft_time_reference_status",
        status as u64,
    )?;
    add_number(text, form, "service", "service_type", service as u64)?;
    add_number(text, form, "subtype", "message_subtype", subtype as u64)
}

// Adds the source or the destination, if there is one.
fn add_user(
    text: &mut String,
    form: Form,
    width: Width,
    kind: PacketKind,
    user: u32,
) -> Result<(), AllocError>
    ensures { OnOk result (string_bytes text.new ≡ string_bytes text.old
        ++ items_text form (user_items width kind user)) }
{
    match kind {
        PacketKind::Tc => add_width(text, form, width, "source", "source_id", user),
        PacketKind::Tm => add_width(text, form, width, "destination", "destination_id", user),
    }
}

// Adds a number of this width behind its word, if there is one.
fn add_width(
    text: &mut String,
    form: Form,
    width: Width,
    word: &str,
    name: &str,
    number: u32,
) -> Result<(), AllocError>
    ensures { OnOk result (string_bytes text.new ≡ string_bytes text.old
        ++ items_text form (width_items width word.now name.now number)) }
{
    match width {
        Width::Absent => Ok(()),
        Width::Octet | Width::Word | Width::Long => {
            add_number(text, form, word, name, number as u64)
        }
    }
}

// Adds a time: its octets, with the date that they say by its code; without a code a number of 1 to
// 4 octets.
fn add_time(
    alloc: Global,
    text: &mut String,
    form: Form,
    code: Option<TimeCode>,
    time: &[u8],
) -> Result<(), AllocError>
    ensures { OnOk result (string_bytes text.new ≡ string_bytes text.old
        ++ items_text form (time_items code time.now)) }
{
    match code {
        Some(code) => add_dated(alloc, text, form, &code, time),
        None => add_plain(alloc, text, form, time),
    }
}

// Adds a time of a code, with the date that it says.
#[tactic(auto, using(crate::proofs::ItemLemmas::behind))]
fn add_dated(
    alloc: Global,
    text: &mut String,
    form: Form,
    code: &TimeCode,
    time: &[u8],
) -> Result<(), AllocError>
    ensures { OnOk result (string_bytes text.new ≡ string_bytes text.old
        ++ items_text form (time_items (Some code.now) time.now)) }
{
    add_octets(alloc, text, form, "time", time)?;
    add_date(alloc, text, form, code, time)
}

// Adds the date that a time says by its code, if it says one.
fn add_date(
    alloc: Global,
    text: &mut String,
    form: Form,
    code: &TimeCode,
    time: &[u8],
) -> Result<(), AllocError>
    ensures { OnOk result (string_bytes text.new ≡ string_bytes text.old
        ++ items_text form (date_items (time_text code.now time.now))) }
{
    match time_text(alloc, code, time)? {
        Some(date) => add_word(text, form, "date", date.as_str()),
        None => Ok(()),
    }
}

// Adds a time without a code: a number of 1 to 4 octets, or the octets.
fn add_plain(alloc: Global, text: &mut String, form: Form, time: &[u8]) -> Result<(), AllocError>
    ensures { OnOk result (string_bytes text.new ≡ string_bytes text.old
        ++ items_text form (plain_items (short_number time.now) time.now)) }
{
    match short_number(time) {
        Some(number) => add_number(text, form, "time", "time", number as u64),
        None => add_octets(alloc, text, form, "time", time),
    }
}

// The number that 1 to 4 octets say.
fn short_number(octets: &[u8]) -> Option<u32>
    ensures { result ≡ short_number octets.now }
{
    match octets {
        [a] => Some(u32::from(*a)),
        [a, b] => Some(u32::from(u16::from_be_bytes([*a, *b]))),
        [a, b, c] => Some(u32::from_be_bytes([0, *a, *b, *c])),
        [a, b, c, d] => Some(u32::from_be_bytes([*a, *b, *c, *d])),
        _ => None,
    }
}

// Adds octets behind their word, in hexadecimal digits, if there are any.
fn add_octets(
    alloc: Global,
    text: &mut String,
    form: Form,
    word: &str,
    octets: &[u8],
) -> Result<(), AllocError>
    ensures { OnOk result (string_bytes text.new ≡ string_bytes text.old
        ++ items_text form (octets_items word.now octets.now)) }
{
    if octets.is_empty() {
        return Ok(());
    }
    let digits = hex::encode(alloc, octets)?;
    add_word(text, form, word, digits.as_str())
}

/// A text with another behind it. The only error is out of memory.
pub fn texts_joined(front: String, more: String) -> Result<String, AllocError>
    ensures { IfOk result (λ t. string_bytes t ≡ string_bytes front ++ string_bytes more) }
{
    let mut text = front;
    text.push_str(more.as_str())?;
    Ok(text)
}

// A packet type's word.
fn type_word(kind: PacketKind) -> &'static str
    ensures { result.now ≡ type_text kind }
{
    match kind {
        PacketKind::Tc => "tc",
        PacketKind::Tm => "tm",
    }
}
