//! Packets listed, from a file or standard input to standard output.

ghost use Rattle.lpt_carried.specs.Layouts.{SizesFit};
ghost use Rattle.lpt_events.specs.Configs.{IsConfig};
ghost use Rattle.lpt_part.specs.Splitting.{IsPartSize};

use crate::decoding::part_body;
use crate::layouts::{PART_FIELDS, kind_of, tell_front, tell_own_front};
use lpt_carried::{Layouts, fitting_size};
use lpt_command_line::ListWords;
use lpt_events::Config;
use lpt_io::{
    Failure, Keeping, Machine, Packets, Status, Voice, carried_ended, opened_packets, output,
    own_or_read, tell_text,
};
use lpt_list::{Form, ListEnd, Listed, Tally, list_stream};
use lpt_packet::{ERROR_CONTROL, PRIMARY_HEADER, Seen, read_packet};
use lpt_part::{Kind, read_part};
use lpt_stream::whole_length;

/// How many octets in front are looked at for parts of another layout.
const FRONT: usize = 131_072;

/// Lists the packets of a stream: by the layouts of a file if one is given, otherwise by the
/// profile.
///
/// Errors: `Read` if a file can't be opened or read, or a capture is wrong; `Config` if the
/// layouts' file is too long; `Write`, `Memory`.
pub fn list<R: Machine>(
    rt: &R,
    voice: Voice,
    config: &Config,
    words: &ListWords<'_>,
) -> Result<Status, Failure>
    requires { IsConfig config.now }
{
    let voice = voice.beside_output();
    let Some(layouts) = own_or_read(rt, config.part_size, words.layout)? else {
        return Ok(Status::Unreadable);
    };
    let span = words.span;
    let packets = opened_packets(rt, voice, &words.files, span.from, span.to)?;
    let mut source = Keeping::new(rt.alloc(), packets, FRONT)?;
    let status = list_packets(rt, voice, config, &layouts, words, &mut source);
    drop(source);
    status
}

// The same of packets that were opened.
fn list_packets<R: Machine>(
    rt: &R,
    voice: Voice,
    config: &Config,
    layouts: &Layouts,
    words: &ListWords<'_>,
    source: &mut Keeping<Packets<R>>,
) -> Result<Status, Failure>
    requires config { IsConfig config.now }
    requires sizes { SizesFit layouts.now }
{
    let mut out = output(rt)?;
    let form = if words.json { Form::Json } else { Form::Text };
    let from = words.span.from.unwrap_or(0);
    let listed = list_stream(
        rt.alloc(),
        form,
        layouts,
        words.strict,
        from,
        source,
        &mut out,
    );
    let listed = carried_ended(rt, voice, source.source(), &words.files, out, listed)?;
    if voice.tells() {
        let front = source.octets_kept();
        if words.layout.is_some() {
            tell_front(rt, layouts, front);
        } else {
            tell_own_front(rt, front);
            tell_size(rt, front, config.part_size);
        }
    }
    let is_short = source.source().before() > 0;
    match list_status(rt, voice, listed) {
        Status::Done if is_short => Ok(Status::Refused),
        status => Ok(status),
    }
}

// Tells by which part size the first part of a message would be read that isn't by this one, if
// there is one among the packets at the front of octets.
fn tell_size(rt: &(impl Eprint + AllocGlobal), octets: &[u8], p: u32)
    requires { IsPartSize p }
{
    let mut rest = octets;
    for _ in 0..octets.len() {
        let Some(len) = whole_length(rest) else {
            return;
        };
        if let Some(size) = other_size(&rest[..len], p) {
            let text = format!(in rt.alloc();
                "a part doesn't fit part_size = {p}, but part_size = {size}"
            );
            tell_text(rt, text);
            return;
        }
        rest = &rest[len..];
    }
}

// The part size by which a packet would be read as the first part of a message, if it isn't by
// this one.
fn other_size(octets: &[u8], p: u32) -> Option<u32>
    requires { IsPartSize p }
{
    if !may_be_other(octets, p) {
        return None;
    }
    let Ok(Seen::Packet(packet)) = read_packet(octets) else {
        return None;
    };
    let (kind, body) = part_body(&packet)?;
    match read_part(kind, body, p) {
        Ok(_) => None,
        Err(_) => fitting_size(kind, body),
    }
}

// Whether a packet has the type of a first part and another length than one of this part size, so
// that it is worth its checksum.
fn may_be_other(octets: &[u8], p: u32) -> bool
    requires { IsPartSize p }
{
    match kind_of(octets) {
        Some((Kind::First, header)) => {
            let around = header.saturating_add(PRIMARY_HEADER + PART_FIELDS + ERROR_CONTROL);
            octets.len() != around.saturating_add(p as usize)
        }
        _ => false,
    }
}

// The status of a list that ended so, after it was told where no packet is, or how much is none.
fn list_status(rt: &(impl Eprint + AllocGlobal), voice: Voice, listed: Listed) -> Status {
    match listed.end {
        ListEnd::Whole => {
            let Tally { damaged, stray } = listed.tally;
            if voice.tells() && (damaged != 0 || stray != 0) {
                let text = format!(in rt.alloc();
                    "damaged packets: {damaged}, octets that are no packet: {stray}"
                );
                tell_text(rt, text);
            }
            Status::Done
        }
        ListEnd::Stopped(place) => {
            let text = format!(in rt.alloc();
                "octet {place}: no sound packet begins here, so reading ended"
            );
            tell_text(rt, text);
            Status::Refused
        }
    }
}
