//! The lines of a list.

ghost use Rattle.std.specs.Prelude.{◌≡◌, ◌++◌, IfOk};
ghost use Rattle.std.specs.String.{string_bytes};
ghost use Rattle.lpt_layout.specs.Packets.{Gives, verdict_as};
ghost use Rattle.lpt_carried.specs.Layouts.{SizesFit};
ghost use Rattle.lpt_list.specs.Said.{layout_in};
ghost use Rattle.lpt_list.specs.declared.form.Form.TheVariants.{Json, Text};
ghost use Rattle.lpt_list.specs.Items.{items_text};
ghost use Rattle.lpt_list.specs.Lists.{closing, length_items, none_line, opening, piece_line};

use crate::Form;
use crate::heads::add_said;
use crate::items::{add_number, push_number};
use lpt_carried::Layouts;
use lpt_layout::SeenAs;
use lpt_packet::PacketFault;
use std::alloc::{AllocError, Global};

// The line of octets at a place of a stream, which are read as this: how many they are, and what
// they say, or the first test that they fail. The only error is out of memory.
#[tactic(auto, using(crate::proofs::ItemLemmas::line_parts))]
pub(crate) fn print_piece(
    alloc: Global,
    form: Form,
    layouts: &Layouts,
    place: u64,
    octets: &[u8],
    seen: &Result<SeenAs<'_>, PacketFault>,
) -> Result<String, AllocError>
    requires sizes { SizesFit layouts.now }
    requires seen { Gives seen.now
        (verdict_as (layout_in layouts.now octets.now).packets.has_checksum octets.now) }
    ensures { IfOk result (λ t. string_bytes t ≡ piece_line form layouts.now place octets.now) }
{
    let mut text = line_front(alloc, form, place, octets.len() as u64)?;
    add_said(alloc, &mut text, form, layouts, octets, seen)?;
    text.push_str(line_end(form))?;
    Ok(text)
}

/// For so many octets a line has room from the first.
const LINE_ROOM: usize = 320;

// The front of a line, with room for the rest: its place, and how many octets there are.
fn line_front(alloc: Global, form: Form, place: u64, len: u64) -> Result<String, AllocError>
    ensures { IfOk result (λ t. string_bytes t
        ≡ opening form place ++ items_text form (length_items len)) }
{
    let mut text = String::with_capacity(alloc, LINE_ROOM)?;
    if let Form::Json = form {
        text.push_str("{\"place\":")?;
    }
    push_number(&mut text, place)?;
    add_number(&mut text, form, "length", "length", len)?;
    Ok(text)
}

// The line that no packet is at a place. The only error is out of memory.
pub(crate) fn print_none(alloc: Global, form: Form, place: u64) -> Result<String, AllocError>
    ensures { IfOk result (λ t. string_bytes t ≡ none_line form place) }
{
    match form {
        Form::Text => words_of_none(alloc, place),
        Form::Json => object_of_none(alloc, place),
    }
}

// The same in words.
fn words_of_none(alloc: Global, place: u64) -> Result<String, AllocError>
    ensures { IfOk result (λ t. string_bytes t ≡ none_line Text place) }
{
    format!(in alloc; "{place} none\n")
}

// The same in JSON.
fn object_of_none(alloc: Global, place: u64) -> Result<String, AllocError>
    ensures { IfOk result (λ t. string_bytes t ≡ none_line Json place) }
{
    format!(in alloc; "{{\"place\":{place},\"packet_type\":\"none\"}}\n")
}

// How a line ends.
fn line_end(form: Form) -> &'static str
    ensures { result.now ≡ closing form }
{
    match form {
        Form::Text => "\n",
        Form::Json => "}\n",
    }
}
