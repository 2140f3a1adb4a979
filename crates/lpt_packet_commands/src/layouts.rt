//! What is told of a mission's layouts.

ghost use Rattle.lpt_carried.specs.Layouts.{SizesFit};

use lpt_carried::Layouts;
use lpt_events::part_kind;
use lpt_io::{Failure, layouts_at, tell_text};
use lpt_list::{Hint, Told, told_in};
use lpt_packet::Direction;
use lpt_part::Kind;
use lpt_pus::{TC_HEADER, TM_HEADER};
use std::rt::Files;

/// The octets of a part's identifier and number.
pub const PART_FIELDS: usize = 4;

/// The layouts of the file at this path; or, if none is given, the profile's; none if the file's
/// are refused, after standard error was told so.
///
/// Errors: `Read` if the file can't be opened or read; `Config` if it is too long; `Memory`.
pub fn own_or_given(
    rt: &(impl Files + Eprint + AllocGlobal),
    path: Option<&str>,
) -> Result<Option<Layouts>, Failure> {
    match path {
        Some(path) => layouts_at(rt, path),
        None => Ok(Some(Layouts::own())),
    }
}

/// Says on standard error by which other layout a part would be read, if there is one.
pub fn tell_hint(rt: &(impl Eprint + AllocGlobal), hint: Option<Hint>) {
    tell_other(rt, "this layout", "", hint);
}

/// Says the same of the packets at the front of octets. That parts would be read without a packet
/// error control is said only if several packets fail a test and no part is read, since a damaged
/// one may look so.
pub fn tell_front(rt: &(impl Eprint + AllocGlobal), layouts: &Layouts, octets: &[u8])
    requires { SizesFit layouts.now }
{
    tell_hint(rt, fit_hint(told_in(layouts, octets)));
}

/// Says the same of packets of this project's profile.
pub fn tell_own_front(rt: &(impl Eprint + AllocGlobal), octets: &[u8]) {
    let hint = fit_hint(told_in(&Layouts::own(), octets));
    tell_other(rt, "the profile", " in a file for --layout", hint);
}

/// The kind of part whose message type stands in a packet of the profile, and how long the
/// secondary header of that type is; none if it has another type. Nothing else of it is looked at.
pub fn kind_of(packet: &[u8]) -> Option<(Kind, usize)> {
    if packet.len() < 9 {
        return None;
    }
    let (direction, header) = if packet[0] & 16 == 0 {
        (Direction::Down, TM_HEADER)
    } else {
        (Direction::Up, TC_HEADER)
    };
    let kind = part_kind(direction, packet[7], packet[8])?;
    Some((kind, header))
}

// The hint that is told of what was found.
fn fit_hint(told: Told) -> Option<Hint> {
    match told.hint {
        Some(Hint::Bare) if told.parts > 0 || told.refused < 2 => None,
        hint => hint,
    }
}

// Says that a part isn't read by a layout, but would be by another, and in which file that stands.
fn tell_other(rt: &(impl Eprint + AllocGlobal), layout: &str, file: &str, hint: Option<Hint>) {
    let Some(hint) = hint else {
        return;
    };
    let (key, octets) = match hint {
        Hint::Time(octets) => ("time = ", Some(octets)),
        Hint::Spare(octets) => ("spare = ", Some(octets)),
        Hint::Bare => ("checksum = false", None),
    };
    let table = match hint {
        Hint::Time(_) => "[telemetry]",
        Hint::Spare(_) => "[telecommands]",
        Hint::Bare => "[telemetry] or [telecommands]",
    };
    let text = match octets {
        Some(octets) => format!(in rt.alloc();
            "a part isn't read by {layout}, but would be with {key}{octets} below {table}{file}"
        ),
        None => format!(in rt.alloc();
            "a part isn't read by {layout}, but would be with {key} below {table}{file}"
        ),
    };
    tell_text(rt, text);
}
