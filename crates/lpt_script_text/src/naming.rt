//! The areas that octets name, as a line.

ghost use Rattle.std.specs.Prelude.{◌≡◌, IfOk};
ghost use Rattle.std.specs.String.{string_bytes};
ghost use Rattle.lpt_script_text.specs.Naming.{areas_line, areas_named, areas_text};

use crate::{Areas, read_areas};
use lpt_packet::{Direction, PacketKind, Seen, read_packet};
use lpt_pus::{read_tc, read_tm};
use std::alloc::{AllocError, Global};

/// A line with the areas that octets name, if they are the packet of a load, a dump, a check or
/// a report that answers one: the memory, how many areas, and where the first of them begins and
/// how long it is. No octets, if they aren't. The only error is out of memory.
pub fn print_areas(alloc: Global, octets: &[u8]) -> Result<String, AllocError>
    ensures { IfOk result (λ t. string_bytes t ≡ areas_line (areas_named octets.now)) }
{
    match named_areas(octets) {
        Some(areas) => print_line(alloc, &areas),
        None => Ok(String::new(alloc)),
    }
}

// The areas that they name, if they name any.
fn named_areas(octets: &[u8]) -> Option<Areas>
    ensures { result ≡ areas_named octets.now }
{
    let Ok(Seen::Packet(packet)) = read_packet(octets) else {
        return None;
    };
    match packet.kind {
        PacketKind::Tc => match read_tc(&packet) {
            Ok((head, body)) => read_areas(Direction::Up, head.service, head.subtype, body),
            Err(_) => None,
        },
        PacketKind::Tm => match read_tm(&packet) {
            Ok((head, body)) => read_areas(Direction::Down, head.service, head.subtype, body),
            Err(_) => None,
        },
    }
}

// The line of areas.
fn print_line(alloc: Global, areas: &Areas) -> Result<String, AllocError>
    ensures { IfOk result (λ t. string_bytes t ≡ areas_text areas.now) }
{
    let Areas {
        memory,
        count,
        address,
        len,
    } = *areas;
    format!(in alloc; "memory {memory} areas {count} address {address} length {len}\n")
}
