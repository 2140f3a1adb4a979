//! What octets are by layouts, written.

ghost use Rattle.std.specs.Prelude.{◌≡◌, ◌⊎◌, IfErr, IfOk, OnOk};
ghost use Rattle.std.specs.Io.KnownBytes.{Appends};
ghost use Rattle.std.specs.String.{string_bytes};
ghost use Rattle.lpt_text.specs.Streams.{AppendsPart, WriteEnds};
ghost use Rattle.lpt_carried.specs.Layouts.{SizesFit};
ghost use Rattle.lpt_list.specs.Lists.{decoding_as};

use crate::Form;
use crate::choice::{direction_of, kind_in};
use crate::heads::add_said;
use lpt_carried::Layouts;
use lpt_layout::read_packet_as;
use lpt_text::{Sink, StreamFault, write_out};
use std::alloc::{AllocError, Global};

/// Writes the line that says what octets are by the layout of their packet type, as a list has it
/// behind place and length.
///
/// Errors: `Write` if a write failed; `Memory`. A front part of the line stays written.
pub fn decode_layouts<K: Sink>(
    alloc: Global,
    layouts: &Layouts,
    octets: &[u8],
    out: &mut K,
) -> Result<(), StreamFault>
    requires { SizesFit layouts.now }
    ensures ok { OnOk result (Appends (K.contents out.old) (K.contents out.new)
        (decoding_as layouts.now octets.now)) }
    ensures fault { IfErr result (λ e. (e ≡ StreamFault.Write) ⊎ (e ≡ StreamFault.Memory)) }
    ensures part { IfErr result (λ _. AppendsPart (K.contents out.old) (K.contents out.new)
        (decoding_as layouts.now octets.now)) }
    ensures writer { WriteEnds result (K.failed out.old) (K.failed out.new) }
{
    match print_decoding(alloc, layouts, octets) {
        Ok(line) => write_out(out, line.as_bytes()),
        Err(_) => Err(StreamFault::Memory),
    }
}

// That line. The only error is out of memory.
fn print_decoding(alloc: Global, layouts: &Layouts, octets: &[u8]) -> Result<String, AllocError>
    requires { SizesFit layouts.now }
    ensures { IfOk result (λ t. string_bytes t ≡ decoding_as layouts.now octets.now) }
{
    let tailored = layouts.tailored_in(direction_of(kind_in(octets)));
    let seen = read_packet_as(&tailored.packets, octets);
    let mut text = String::from_str(alloc, "packet")?;
    add_said(alloc, &mut text, Form::Text, layouts, octets, &seen)?;
    text.push_str("\n")?;
    Ok(text)
}
