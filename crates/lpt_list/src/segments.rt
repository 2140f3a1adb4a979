//! What octets that are no packet say, as the items of a line.

ghost use Rattle.std.specs.Prelude.{◌≡◌, ◌+◌, ◌<◌, ◌≤◌, IfOk, length};
ghost use Rattle.std.specs.String.{string_bytes};
ghost use Rattle.lpt_packet.specs.Numbers.{word_at};
ghost use Rattle.lpt_packet.specs.Packets.{kind_of};
ghost use Rattle.lpt_list.specs.Items.{items_text, flags_items, header_items, refused_front, refused_items, segment_items, segment_text};

use crate::Form;
use crate::headers::{print_primary, texts_joined};
use crate::heads::print_fault;
use lpt_packet::{PacketFault, PacketKind};
use lpt_stream::ends_in_checksum;
use std::alloc::{AllocError, Global};

/// The first test that octets fail. In front of it stands the primary header of a segment of a
/// message in several packets, and which segment it is; and that of a packet with a right checksum
/// that has no secondary header. The only error is out of memory.
#[tactic(auto, using(crate::proofs::ItemLemmas::items_append))]
pub fn print_refused(
    alloc: Global,
    form: Form,
    octets: &[u8],
    fault: PacketFault,
) -> Result<String, AllocError>
    requires { fault ≡ PacketFault.Segmented → 7 ≤ length octets.now }
    ensures { IfOk result (λ t. string_bytes t ≡ items_text form (refused_items octets.now fault)) }
{
    let front = refused_front(alloc, form, octets, fault)?;
    texts_joined(front, print_fault(alloc, form, fault.code(), fault.name())?)
}

// What a segment says, or a packet without a secondary header; nothing if another test fails.
fn refused_front(
    alloc: Global,
    form: Form,
    octets: &[u8],
    fault: PacketFault,
) -> Result<String, AllocError>
    requires { fault ≡ PacketFault.Segmented → 7 ≤ length octets.now }
    ensures { IfOk result (λ t. string_bytes t ≡ items_text form (refused_front octets.now fault)) }
{
    match fault {
        PacketFault::Segmented => print_segment(alloc, form, octets),
        PacketFault::NoSecondary if ends_in_checksum(octets) => print_header(alloc, form, octets),
        PacketFault::Short
        | PacketFault::Version
        | PacketFault::Length
        | PacketFault::NoSecondary
        | PacketFault::Checksum => Ok(String::new(alloc)),
    }
}

// The primary header of a segment, and which it is.
#[tactic(auto, using(crate::proofs::ItemLemmas::items_append))]
fn print_segment(alloc: Global, form: Form, octets: &[u8]) -> Result<String, AllocError>
    requires { 7 ≤ length octets.now }
    ensures { IfOk result (λ t. string_bytes t ≡ items_text form (segment_items octets.now)) }
{
    let front = print_header(alloc, form, octets)?;
    texts_joined(
        front,
        print_flags(alloc, form, segment_word(word(octets, 2) >> 14))?,
    )
}

// The primary header in front of octets.
fn print_header(alloc: Global, form: Form, octets: &[u8]) -> Result<String, AllocError>
    requires { 6 ≤ length octets.now }
    ensures { IfOk result (λ t. string_bytes t ≡ items_text form (header_items octets.now)) }
{
    let (first, second) = (word(octets, 0), word(octets, 2));
    print_primary(alloc, form, kind_of(first), first & 0x07ff, second & 0x3fff)
}

// Which segment it is, by this word.
fn print_flags(alloc: Global, form: Form, word: &str) -> Result<String, AllocError>
    ensures { IfOk result (λ t. string_bytes t ≡ items_text form (flags_items word.now)) }
{
    match form {
        Form::Text => format!(in alloc; " segment {word}"),
        Form::Json => format!(in alloc; ",\"sequence_flags\":\"{word}\""),
    }
}

// The packet type that a header's first word says.
fn kind_of(first: u16) -> PacketKind
    ensures { result ≡ kind_of first }
{
    if (first >> 12) & 1 == 1 {
        PacketKind::Tc
    } else {
        PacketKind::Tm
    }
}

// The word for sequence flags.
fn segment_word(flags: u16) -> &'static str
    ensures { result.now ≡ segment_text flags }
{
    match flags {
        0 => "continuation",
        1 => "first",
        2 => "last",
        _ => "unsegmented",
    }
}

// The 16-bit number at a place.
fn word(octets: &[u8], at: usize) -> u16
    requires { at + 1 < length octets.now }
    ensures { result ≡ word_at octets.now at }
{
    u16::from_be_bytes([octets[at], octets[at + 1]])
}
