//! What octets are as a packet.

ghost use Rattle.std.specs.Prelude.{◌≤◌, length};
ghost use Rattle.lpt_part.specs.Splitting.{IsPartSize};

use crate::layouts::tell_hint;
use lpt_command_line::DecodeWords;
use lpt_events::{Config, part_kind};
use lpt_io::{
    Failure, Fault, Machine, STANDARD, Status, layouts_at, open_input, output, read_failure,
    status_of, tell_text, write_all_out, written_ended,
};
use lpt_list::{Form, decode_layouts, hint_of, is_read, print_refused};
use lpt_packet::{Direction, Octets, Packet, PacketFault, PacketKind, Seen, read_packet};
use lpt_part::{Kind, read_part};
use lpt_pus::{read_tc, read_tm};
use lpt_script_text::print_areas;
use lpt_script_words::read_hex;
use lpt_text::{End, LONGEST_TEXT, Sink, StreamFault, read_text, write_out};
use std::alloc::{AllocError, Global};

/// A packet has at least so many octets.
const LEAST_PACKET: usize = 7;

/// How many octets of a part's body stand before the part's own.
const PART_FIELDS: usize = 4;

/// The least part size that can be configured.
const LEAST_PART_SIZE: u32 = 4;

/// The greatest part size that can be configured.
const GREATEST_PART_SIZE: u32 = 1024;

// Where hexadecimal digits come from.
#[derive(Clone, Copy, PartialEq, Eq)]
enum Given {
    // A word of the command line.
    Word,
    // Standard input.
    Input,
}

impl Given {
    // That the octet at this place, from 1, is no digit. The only error is out of memory.
    fn no_digit(self, rt: &impl AllocGlobal, place: u64) -> Result<String, AllocError> {
        match self {
            Given::Word => format!(in rt.alloc();
                "HEX: octet {place} of the word isn't a hexadecimal digit"
            ),
            Given::Input => format!(in rt.alloc();
                "standard input: octet {place} isn't a hexadecimal digit"
            ),
        }
    }

    // That there are so many digits. The only error is out of memory.
    fn odd(self, rt: &impl AllocGlobal, digits: usize) -> Result<String, AllocError> {
        if digits == 0 {
            return format!(in rt.alloc(); "HEX: the word is empty, and - stands for no octets");
        }
        let name = match self {
            Given::Word => "HEX",
            Given::Input => "standard input",
        };
        format!(in rt.alloc(); "{name}: {digits} digits, and an octet has two")
    }
}

/// Prints what octets are as a packet: those of a word, of which `-` is none, or those of standard
/// input if there is no word. White space is passed over there, and if it has no digits, it is no
/// octets; an empty word is refused.
///
/// Errors: `Read`, `Write` if a read or a write failed, `Memory`. What stands for no octets is
/// no error here: it is reported on standard error, and the status says so. If a part isn't read
/// for the configured part size, a note on standard error says which one fits, if one does. If
/// more is asked for, the areas that they name are printed too, and which segment they are. If
/// layouts are given, they are read by these, and the note says by which other one they would be.
pub fn decode<R: Machine>(
    rt: &R,
    config: Config,
    words: &DecodeWords<'_>,
) -> Result<Status, Failure>
    requires { IsPartSize config.part_size }
{
    let Some(octets) = octets_given(rt, words.hex)? else {
        return Ok(Status::Unreadable);
    };
    let octets = octets.as_slice();
    match words.layout {
        Some(path) => decode_as(rt, path, octets, config.part_size),
        None if words.more => decode_more(rt, octets, config.part_size),
        None => decode_octets(rt, octets, "", config.part_size),
    }
}

// Prints what octets are as a packet of the layouts of the file at this path, or that they are too
// few for one.
fn decode_as<R: Machine>(rt: &R, path: &str, octets: &[u8], p: u32) -> Result<Status, Failure>
    requires { IsPartSize p }
{
    let Some(layouts) = layouts_at(rt, path)? else {
        return Ok(Status::Unreadable);
    };
    if octets.len() < LEAST_PACKET {
        return decode_octets(rt, octets, "", p);
    }
    let mut out = output(rt)?;
    let decoded = decode_layouts(rt.alloc(), &layouts, octets, &mut out);
    written_ended(rt, out, decoded)?;
    tell_hint(rt, hint_of(&layouts, octets));
    Ok(status_of(!is_read(&layouts, octets)))
}

// Prints what octets are as a packet, for parts of `p` octets, and behind that these lines.
fn decode_octets(
    rt: &(impl Print + Eprint + AllocGlobal),
    octets: &[u8],
    behind: &str,
    p: u32,
) -> Result<Status, Failure>
    requires { IsPartSize p }
{
    let mut out = output(rt)?;
    let decoded = write_decoded(rt.alloc(), octets, behind, p, &mut out);
    let is_faulty = written_ended(rt, out, decoded)?;
    tell_size(rt, octets, p);
    Ok(status_of(is_faulty))
}

// Writes it, and whether the octets have a fault.
fn write_decoded<K: Sink>(
    alloc: Global,
    octets: &[u8],
    behind: &str,
    p: u32,
    out: &mut K,
) -> Result<bool, StreamFault>
    requires { IsPartSize p }
{
    let is_faulty = lpt_script::decode(alloc, octets, p, out)?;
    write_out(out, behind.as_bytes())?;
    Ok(is_faulty)
}

// The same with the areas that they name, or with which segment they are.
fn decode_more(
    rt: &(impl Print + Eprint + AllocGlobal),
    octets: &[u8],
    p: u32,
) -> Result<Status, Failure>
    requires { IsPartSize p }
{
    if octets.len() >= LEAST_PACKET && matches!(read_packet(octets), Err(PacketFault::Segmented)) {
        return decode_segment(rt, octets);
    }
    let areas = print_areas(rt.alloc(), octets)?;
    decode_octets(rt, octets, areas.as_str(), p)
}

// Prints which segment of a message in several packets octets are.
fn decode_segment(rt: &(impl Print + AllocGlobal), octets: &[u8]) -> Result<Status, Failure>
    requires { 7 ≤ length octets.now }
{
    let fault = PacketFault::Segmented;
    let said = print_refused(rt.alloc(), Form::Text, octets, fault)?;
    let said = said.as_str();
    let line = format!(in rt.alloc(); "packet{said}\n")?;
    write_all_out(rt, line.as_bytes())?;
    Ok(Status::Refused)
}

// The octets that a word stands for, or standard input if there is none; none if it stands for
// none, after standard error was told so.
//
// Errors: as of `standard_text`; `Memory`.
fn octets_given<R: Machine>(rt: &R, hex: Option<&str>) -> Result<Option<Octets>, Failure> {
    match hex {
        // As in a script.
        Some("-") => Ok(Some(Octets::from_vec(Vec::new(rt.alloc())))),
        Some(word) => octets_in(rt, Given::Word, word.as_bytes()),
        None => {
            let text = standard_text(rt)?;
            octets_in(rt, Given::Input, text.as_slice())
        }
    }
}

// The text of standard input.
//
// Errors: `Read` if it can't be read, or has more than 16,777,216 octets; `Memory`.
fn standard_text<R: Machine>(rt: &R) -> Result<Vec<u8>, Failure> {
    let mut source = open_input(rt, STANDARD)?;
    let (text, end) = read_text(rt.alloc(), &mut source)?;
    match end {
        End::Whole => Ok(text),
        End::Failed => Err(read_failure(rt, source.inner(), STANDARD)),
        End::TooLong => {
            let place = format!(in rt.alloc(); "standard input: more than {LONGEST_TEXT} octets");
            Err(Failure::at(Fault::Read, place))
        }
    }
}

// The octets that a text stands for, in hexadecimal digits; none if it stands for none, after
// standard error was told so. The only error is out of memory.
fn octets_in(
    rt: &(impl Eprint + AllocGlobal),
    given: Given,
    text: &[u8],
) -> Result<Option<Octets>, Failure> {
    let mut digits = Vec::new(rt.alloc());
    let mut place = 0u64;
    for octet in text {
        place = place.saturating_add(1);
        if octet.is_ascii_hexdigit() {
            digits.push(*octet)?;
        } else if !(given == Given::Input && octet.is_ascii_whitespace()) {
            refuse_hex(rt, given.no_digit(rt, place));
            return Ok(None);
        }
    }
    if digits.is_empty() && given == Given::Input {
        return Ok(Some(Octets::from_vec(digits)));
    }
    let octets = read_hex(rt.alloc(), digits.as_slice())?;
    if octets.is_none() {
        refuse_hex(rt, given.odd(rt, digits.len()));
    }
    Ok(octets)
}

// Says on standard error that a text isn't octets, and where.
fn refuse_hex(rt: &impl Eprint, place: Result<String, AllocError>) {
    let _ = rt.eprintln("hex refused");
    tell_text(rt, place);
}

// Says on standard error if octets carry a part that isn't read for parts of `p` octets, but
// would be for parts of its own length.
fn tell_size(rt: &(impl Eprint + AllocGlobal), octets: &[u8], p: u32)
    requires { IsPartSize p }
{
    let Ok(Seen::Packet(packet)) = read_packet(octets) else {
        return;
    };
    let Some((kind, body)) = part_body(&packet) else {
        return;
    };
    let Ok(len) = u32::try_from(body.len().saturating_sub(PART_FIELDS)) else {
        return;
    };
    let own = len.max(LEAST_PART_SIZE);
    if own > GREATEST_PART_SIZE || read_part(kind, body, p).is_ok() {
        return;
    }
    if read_part(kind, body, own).is_ok() {
        let text = format!(in rt.alloc();
            "the part isn't read: its {len} octets don't fit part_size = {p}, but part_size = {own}"
        );
        tell_text(rt, text);
    }
}

/// The kind of part that a packet carries, and the message's body; none if it carries none.
pub fn part_body<'a>(packet: &Packet<'a>) -> Option<(Kind, &'a [u8])> {
    let (direction, service, subtype, body) = match packet.kind {
        PacketKind::Tc => {
            let (head, body) = read_tc(packet).ok()?;
            (Direction::Up, head.service, head.subtype, body)
        }
        PacketKind::Tm => {
            let (head, body) = read_tm(packet).ok()?;
            (Direction::Down, head.service, head.subtype, body)
        }
    };
    Some((part_kind(direction, service, subtype)?, body))
}
