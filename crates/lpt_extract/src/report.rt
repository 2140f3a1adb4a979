//! Dump reports, read.

ghost use Rattle.std.specs.Prelude.{◌≡◌, ◌≢◌, map, option_and_then, option_map, true, Result, Err, IfOk};
ghost use Rattle.std.specs.Result.{result_ok};
ghost use Rattle.lpt_memory.specs.Fields.{all_areas};
ghost use Rattle.lpt_packet.specs.Packets.{APacket, Sight, verdict};
ghost use Rattle.lpt_packet.specs.declared.fault.PacketFault.{PacketFault};
ghost use Rattle.lpt_packet.specs.declared.fault.PacketFault.TheVariants.{Checksum};
ghost use Rattle.lpt_layout.specs.Packets.{fields, Gives};
ghost use Rattle.lpt_memory.specs.Requests.{front_load_area};
ghost use Rattle.lpt_extract.specs.Reports.{body_report, dump_by, dump_in, said_in};
ghost use Rattle.lpt_extract.specs.ReportsInside.{dump_found, load_area, report_said};

use crate::seen_area::SeenArea;
use lpt_events::part_kind;
use lpt_layout::{Layout, PacketAs, SeenAs, read_packet_as, read_sealed_as, read_tm_as};
use lpt_memory::fields;
use lpt_packet::{Direction, PacketFault};
use std::alloc::{AllocError, Global};

/// The service type of memory management.
const MEMORY: u8 = 6;

/// The message subtype of a report that answers a dump.
const DUMP_REPORT: u8 = 6;

// A dump report, or what may become one.
#[derive(Clone, Copy)]
pub(crate) enum Dump<'a> {
    // A report of this APID, with this body.
    Report(u16, &'a [u8]),
    // A part of a message, of this APID.
    PartOf(u16),
}

/// What octets say of a memory.
#[derive(Drop)]
pub(crate) enum Report<'a> {
    /// They are no dump report.
    Other,
    /// They carry a part of a message, which may be one.
    OfPart,
    /// They are one of this other APID, or a part of that.
    Foreign(u16),
    /// They are one whose body, of so many octets, isn't read.
    Unread(usize),
    /// They are one of this memory.
    Areas(u8, Vec<SeenArea<'a>>),
}

// What a dump report or a part that was found says to someone who wants dump reports of this APID.
// The only error is out of memory.
pub(crate) fn read_report<'a>(
    alloc: Global,
    apid: u16,
    dump: Option<Dump<'a>>,
) -> Result<Report<'a>, AllocError>
    ensures { IfOk result (λ r. report_said r ≡ said_in apid (dump_found dump.entry)) }
{
    match dump {
        Some(Dump::Report(of, body)) if of == apid => read_body(alloc, body),
        Some(Dump::Report(of, _)) => Ok(Report::Foreign(of)),
        Some(Dump::PartOf(of)) if of == apid => Ok(Report::OfPart),
        Some(Dump::PartOf(of)) => Ok(Report::Foreign(of)),
        None => Ok(Report::Other),
    }
}

// The dump report or the part that octets are by this layout. The checksum of sealed ones was taken
// before, and is right; it isn't taken again.
#[tactic(auto, unfolding(crate::specs::Reports::dump_in))]
pub(crate) fn dump_in<'a>(layout: &Layout, octets: &'a [u8], is_sealed: bool) -> Option<Dump<'a>>
    requires { is_sealed ≡ true → verdict octets.now ≢ Err Checksum }
    ensures { dump_found result ≡ dump_in layout.now octets.now }
{
    if is_sealed {
        dump_seen(layout, read_sealed_as(layout, octets))
    } else {
        dump_seen(layout, read_packet_as(layout, octets))
    }
}

// That which octets are that are read as this.
fn dump_seen<'a>(layout: &Layout, read: Result<SeenAs<'a>, PacketFault>) -> Option<Dump<'a>>
    ensures { (v : Result Sight PacketFault) → Gives read.entry v
        → dump_found result ≡ option_and_then (dump_by layout.now) (result_ok v) }
{
    match read {
        Ok(SeenAs::Packet(packet)) => dump_in_packet(layout, &packet),
        Ok(SeenAs::Idle) => None,
        Err(_) => None,
    }
}

// That which a packet is.
fn dump_in_packet<'a>(layout: &Layout, packet: &PacketAs<'a>) -> Option<Dump<'a>>
    ensures { dump_found result ≡ dump_by layout.now (APacket (fields packet.now)) }
{
    let Ok(message) = read_tm_as(layout, packet) else {
        return None;
    };
    let (service, subtype) = (message.service, message.subtype);
    if service == MEMORY && subtype == DUMP_REPORT {
        return Some(Dump::Report(message.apid, message.body));
    }
    match part_kind(Direction::Down, service, subtype) {
        Some(_) => Some(Dump::PartOf(message.apid)),
        None => None,
    }
}

// What the body of a dump report says. The only error is out of memory.
#[tactic(auto, unfolding(crate::specs::Reports::body_report, lpt_memory::specs::Requests::request_in))]
fn read_body<'a>(alloc: Global, body: &'a [u8]) -> Result<Report<'a>, AllocError>
    ensures { IfOk result (λ r. report_said r ≡ body_report body.now) }
{
    let Some((memory, count, rest)) = fields::head(body) else {
        return Ok(Report::Unread(body.len()));
    };
    match read_areas(alloc, count, rest)? {
        Some(areas) => Ok(Report::Areas(memory, areas)),
        None => Ok(Report::Unread(body.len())),
    }
}

// So many areas, with nothing behind them. The only error is out of memory.
fn read_areas<'a>(
    alloc: Global,
    count: u8,
    octets: &'a [u8],
) -> Result<Option<Vec<SeenArea<'a>>>, AllocError>
    ensures { IfOk result (λ r. option_map (λ v. map load_area v.items) r
        ≡ all_areas front_load_area count octets.now) }
{
    let mut areas = Vec::with_capacity(alloc, usize::from(count))?;
    let mut rest = octets;
    for _ in 0..count {
        let Some((area, behind)) = read_area(rest) else {
            return Ok(None);
        };
        areas.push(area)?;
        rest = behind;
    }
    if !rest.is_empty() {
        return Ok(None);
    }
    Ok(Some(areas))
}

// The area that stands first, and what is behind it.
#[tactic(auto, unfolding(lpt_memory::specs::Requests::front_load_area))]
fn read_area<'a>(octets: &'a [u8]) -> Option<(SeenArea<'a>, &'a [u8])>
    ensures { option_map (λ x. (load_area x.0, x.1.now)) result ≡ front_load_area octets.now }
{
    let (address, rest) = fields::long(octets)?;
    let (len, rest) = fields::word(rest)?;
    let (text, rest) = fields::octets(rest, len)?;
    let (checksum, rest) = fields::word(rest)?;
    let area = SeenArea {
        address,
        octets: text,
        checksum,
    };
    Some((area, rest))
}
