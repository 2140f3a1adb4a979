//! What a piece of a stream asks or tells.

ghost use Rattle.std.specs.Prelude.{◌≡◌, ◌≢◌, true, Err, Ok};
ghost use Rattle.lpt_packet.specs.declared.fault.PacketFault.TheVariants.{Checksum};
ghost use Rattle.lpt_packet.specs.declared.packet.PacketKind.TheVariants.{Tc, Tm};
ghost use Rattle.lpt_packet.specs.Packets.{verdict};
ghost use Rattle.lpt_carried.specs.Carried.{cut_for};
ghost use Rattle.lpt_layout.specs.Messages.{message_verdict, message_said};
ghost use Rattle.lpt_layout.specs.Packets.{fields};
ghost use Rattle.lpt_stream.specs.Pieces.{IsSealedBy};
ghost use Rattle.lpt_outcomes.specs.Passing.{in_piece};
ghost use Rattle.lpt_outcomes.specs.Requests.{asked_by, request_in};
ghost use Rattle.lpt_outcomes.specs.Reports.{news_by, news_in, news_of_body};

use crate::news::ReportNews;
use crate::passed::Beside;
use crate::{Asked, Layout, Outcome};
use lpt_events::part_kind;
use lpt_layout::{Message, PacketAs, SeenAs, read_sealed_as, read_tc_as, read_tm_as};
use lpt_memory::fields;
use lpt_packet::Direction;
use lpt_pus::RequestId;
use lpt_requests::read_any_report;
use lpt_script_text::read_areas;
use lpt_stream::{Cut, PieceKind};

/// The service type of request verification (ECSS-E-ST-70-41C).
const VERIFICATION: u8 = 1;

/// The message subtype of a report that a step of execution succeeded.
const PROGRESS: u8 = 5;

// How a stream of packets of this layout is cut: by checksums, if they have one.
pub(crate) fn cut_for(layout: &Layout) -> Cut
    ensures { result ≡ cut_for layout.now.has_checksum }
{
    if layout.has_checksum {
        Cut::Sealed
    } else {
        Cut::Framed
    }
}

// The request that a piece of this kind is by this layout, or what it is beside.
pub(crate) fn request_in_piece(
    layout: &Layout,
    kind: PieceKind,
    octets: &[u8],
) -> Result<Asked, Beside>
    requires { IsSealedBy (cut_for layout.now.has_checksum) kind octets.now }
    ensures { result ≡ in_piece (request_in layout.now) kind octets.now }
{
    match kind {
        PieceKind::Whole => request_in(layout, octets),
        PieceKind::Damaged => Err(Beside::Damaged),
        PieceKind::Stray => Err(Beside::Stray),
    }
}

// The request that the octets of a whole piece are.
#[tactic(auto, unfolding(crate::specs::Requests::request_in))]
fn request_in(layout: &Layout, octets: &[u8]) -> Result<Asked, Beside>
    requires { layout.now.has_checksum ≡ true → verdict octets.now ≢ Err Checksum }
    ensures { result ≡ request_in layout.now octets.now }
{
    let Some((value, _)) = fields::long(octets) else {
        return Err(Beside::Foreign);
    };
    match read_sealed_as(layout, octets) {
        Ok(SeenAs::Packet(packet)) => request_of(layout, value, &packet),
        Ok(SeenAs::Idle) => Err(Beside::Quiet),
        Err(_) => Err(Beside::Foreign),
    }
}

// The request of this request ID that a packet is.
fn request_of(layout: &Layout, id: u32, packet: &PacketAs<'_>) -> Result<Asked, Beside>
    ensures { result ≡ asked_by id (message_verdict layout.now Tc (fields packet.now)) }
{
    match read_tc_as(layout, packet) {
        Ok(message) => message_asked(id, &message),
        Err(_) => Err(Beside::Foreign),
    }
}

// The request of this request ID that a telecommand is.
fn message_asked(id: u32, message: &Message<'_>) -> Result<Asked, Beside>
    ensures { result ≡ asked_by id (Ok (message_said message.now)) }
{
    let (service, subtype) = (message.service, message.subtype);
    if part_kind(Direction::Up, service, subtype).is_some() {
        return Err(Beside::Part);
    }
    Ok(Asked {
        source: message.user,
        request: RequestId { value: id },
        apid: message.apid,
        count: message.count,
        flags: message.flags,
        service,
        subtype,
        areas: read_areas(Direction::Up, service, subtype, message.body),
        outcome: Outcome::new(),
    })
}

// What a piece of this kind tells of a request by this layout, or what it is beside.
pub(crate) fn news_in_piece(
    layout: &Layout,
    kind: PieceKind,
    octets: &[u8],
) -> Result<ReportNews, Beside>
    requires { IsSealedBy (cut_for layout.now.has_checksum) kind octets.now }
    ensures { result ≡ in_piece (news_in layout.now) kind octets.now }
{
    match kind {
        PieceKind::Whole => news_in(layout, octets),
        PieceKind::Damaged => Err(Beside::Damaged),
        PieceKind::Stray => Err(Beside::Stray),
    }
}

// What the octets of a whole piece tell of a request.
#[tactic(auto, unfolding(crate::specs::Reports::news_in))]
fn news_in(layout: &Layout, octets: &[u8]) -> Result<ReportNews, Beside>
    requires { layout.now.has_checksum ≡ true → verdict octets.now ≢ Err Checksum }
    ensures { result ≡ news_in layout.now octets.now }
{
    match read_sealed_as(layout, octets) {
        Ok(SeenAs::Packet(packet)) => news_of(layout, &packet),
        Ok(SeenAs::Idle) | Err(_) => Err(Beside::Quiet),
    }
}

// What a packet tells of a request.
fn news_of(layout: &Layout, packet: &PacketAs<'_>) -> Result<ReportNews, Beside>
    ensures { result ≡ news_by (message_verdict layout.now Tm (fields packet.now)) }
{
    match read_tm_as(layout, packet) {
        Ok(message) => news_in_message(&message),
        Err(_) => Err(Beside::Foreign),
    }
}

// What telemetry tells of a request.
fn news_in_message(message: &Message<'_>) -> Result<ReportNews, Beside>
    ensures { result ≡ news_by (Ok (message_said message.now)) }
{
    if message.service == VERIFICATION {
        news_in_body(message.user, message.subtype, message.body)
    } else {
        Err(Beside::Quiet)
    }
}

// What the body of a verification report to this destination, of this subtype, tells.
fn news_in_body(destination: u32, subtype: u8, body: &[u8]) -> Result<ReportNews, Beside>
    ensures { result ≡ news_of_body destination subtype body.now }
{
    match read_any_report(subtype, body) {
        Some(report) => Ok(ReportNews {
            destination,
            subtype,
            report,
        }),
        None if subtype == PROGRESS => Err(Beside::Quiet),
        None => Err(Beside::Unread),
    }
}
