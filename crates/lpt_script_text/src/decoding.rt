//! What octets are, as a text.

ghost use Rattle.std.specs.Prelude.{◌≡◌, [], true, false, IfOk};
ghost use Rattle.std.specs.String.{string_bytes};
ghost use Rattle.lpt_packet.specs.Packets.{fields};
ghost use Rattle.lpt_pus.specs.Commands.{command, tc_verdict};
ghost use Rattle.lpt_pus.specs.Telemetry.{telemetry, tm_verdict};
ghost use Rattle.lpt_part.specs.Splitting.{IsPartSize};
ghost use Rattle.lpt_script_text.specs.Decoding.{Says, decoding, tc_decoding, tm_decoding, fault_text, tc_text, tm_text, body_text, part_line, abort_line, report_line, tc_carried, tm_carried};

use crate::words::octets_word;
use lpt_events::part_kind;
use lpt_packet::{Direction, Packet, PacketKind, Seen, read_packet};
use lpt_part::{ABORT, Kind, TRANSFER, read_abort, read_part};
use lpt_pus::{TcHead, TmHead, read_tc, read_tm};
use lpt_verify::read_report;
use std::alloc::{AllocError, Global};

/// The service type of request verification (ECSS-E-ST-70-41C).
const VERIFICATION: u8 = 1;

/// What octets are, as a text, and whether they fail a test.
#[derive(Debug, Drop)]
pub struct Decoded {
    /// The lines that say what the octets are.
    pub text: String,
    /// Whether they are neither idle, a telecommand nor telemetry.
    pub faulty: bool,
}

/// What octets are, for parts of `p` octets (4 to 1024).
///
/// `idle`; or a line with what the headers of the telecommand or the telemetry say, one with its
/// body, and one with the part, the verification report or the abortion report that the body is,
/// if it is read as one; or `fault 3 Length`, the first test of the packet, and then of its
/// secondary header, that fails.
pub fn print_decoded(alloc: Global, octets: &[u8], p: u32) -> Result<Decoded, AllocError>
    requires { IsPartSize p }
    ensures { IfOk result (λ d. Says (string_bytes d.text) d.faulty (decoding p octets.now)) }
{
    match read_packet(octets) {
        Ok(Seen::Idle) => Ok(readable(String::from_str(alloc, "idle\n")?)),
        Ok(Seen::Packet(packet)) => match packet.kind {
            PacketKind::Tc => decoded_tc(alloc, &packet, p),
            PacketKind::Tm => decoded_tm(alloc, &packet, p),
        },
        Err(fault) => Ok(faulty(print_fault(alloc, fault.code(), fault.name())?)),
    }
}

// What a packet is as a telecommand.
fn decoded_tc(alloc: Global, packet: &Packet<'_>, p: u32) -> Result<Decoded, AllocError>
    requires { IsPartSize p }
    ensures { IfOk result (λ d. Says (string_bytes d.text) d.faulty
        (tc_decoding p (tc_verdict (fields packet.now)))) }
{
    match read_tc(packet) {
        Ok((head, body)) => {
            let mut text = print_tc(alloc, &head)?;
            text.push_str(print_body(alloc, body)?.as_str())?;
            text.push_str(print_tc_carried(alloc, &head, body, p)?.as_str())?;
            Ok(readable(text))
        }
        Err(fault) => Ok(faulty(print_fault(alloc, fault.code(), fault.name())?)),
    }
}

// What a packet is as telemetry.
fn decoded_tm(alloc: Global, packet: &Packet<'_>, p: u32) -> Result<Decoded, AllocError>
    requires { IsPartSize p }
    ensures { IfOk result (λ d. Says (string_bytes d.text) d.faulty
        (tm_decoding p (tm_verdict (fields packet.now)))) }
{
    match read_tm(packet) {
        Ok((head, body)) => {
            let mut text = print_tm(alloc, &head)?;
            text.push_str(print_body(alloc, body)?.as_str())?;
            text.push_str(print_tm_carried(alloc, &head, body, p)?.as_str())?;
            Ok(readable(text))
        }
        Err(fault) => Ok(faulty(print_fault(alloc, fault.code(), fault.name())?)),
    }
}

// Octets that are read.
fn readable(text: String) -> Decoded
    ensures text { string_bytes result.text ≡ string_bytes text }
    ensures faulty { result.faulty ≡ false }
{
    Decoded {
        text,
        faulty: false,
    }
}

// Octets that fail a test.
fn faulty(text: String) -> Decoded
    ensures text { string_bytes result.text ≡ string_bytes text }
    ensures faulty { result.faulty ≡ true }
{
    Decoded { text, faulty: true }
}

// The first test that octets fail.
fn print_fault(alloc: Global, code: u16, name: &str) -> Result<String, AllocError>
    ensures { IfOk result (λ t. string_bytes t ≡ fault_text code name.now) }
{
    format!(in alloc; "fault {code} {name}\n")
}

// What a telecommand's headers say.
fn print_tc(alloc: Global, head: &TcHead) -> Result<String, AllocError>
    ensures { IfOk result (λ t. string_bytes t ≡ tc_text (command head.now [])) }
{
    let TcHead {
        apid,
        count,
        flags,
        service,
        subtype,
        source,
    } = *head;
    let mut text = format!(in alloc; "tc apid {apid} count {count} flags {flags}")?;
    let more = format!(in alloc; " service {service} subtype {subtype} source {source}\n")?;
    text.push_str(more.as_str())?;
    Ok(text)
}

// What a telemetry packet's headers say.
fn print_tm(alloc: Global, head: &TmHead) -> Result<String, AllocError>
    ensures { IfOk result (λ t. string_bytes t ≡ tm_text (telemetry head.now [])) }
{
    let TmHead {
        apid,
        count,
        status,
        service,
        subtype,
        counter,
        destination,
        time,
    } = *head;
    let mut text = format!(in alloc; "tm apid {apid} count {count} status {status}")?;
    let more = format!(in alloc;
        " service {service} subtype {subtype} counter {counter} \
        destination {destination} time {time}\n"
    )?;
    text.push_str(more.as_str())?;
    Ok(text)
}

// The octets of a message's body.
fn print_body(alloc: Global, body: &[u8]) -> Result<String, AllocError>
    ensures { IfOk result (λ t. string_bytes t ≡ body_text body.now) }
{
    let octets = octets_word(alloc, body)?;
    format!(in alloc; "body {octets}\n")
}

// The part that a telecommand carries, if it carries one.
fn print_tc_carried(alloc: Global, head: &TcHead, body: &[u8], p: u32) -> Result<String, AllocError>
    requires { IsPartSize p }
    ensures { IfOk result (λ t. string_bytes t ≡ tc_carried p (command head.now body.now)) }
{
    match part_kind(Direction::Up, head.service, head.subtype) {
        Some(kind) => print_part(alloc, kind, body, p),
        None => Ok(String::new(alloc)),
    }
}

// The part or the report that telemetry carries, if it carries one.
fn print_tm_carried(alloc: Global, head: &TmHead, body: &[u8], p: u32) -> Result<String, AllocError>
    requires { IsPartSize p }
    ensures { IfOk result (λ t. string_bytes t ≡ tm_carried p (telemetry head.now body.now)) }
{
    let (service, subtype) = (head.service, head.subtype);
    match part_kind(Direction::Down, service, subtype) {
        Some(kind) => print_part(alloc, kind, body, p),
        None => match (service, subtype) {
            (VERIFICATION, _) => print_report(alloc, subtype, body),
            (TRANSFER, ABORT) => print_abort(alloc, body),
            _ => Ok(String::new(alloc)),
        },
    }
}

// The part of this kind that a body is; nothing if it isn't read as one.
fn print_part(alloc: Global, kind: Kind, body: &[u8], p: u32) -> Result<String, AllocError>
    requires { IsPartSize p }
    ensures { IfOk result (λ t. string_bytes t ≡ part_line p body.now kind) }
{
    let Ok(part) = read_part(kind, body, p) else {
        return Ok(String::new(alloc));
    };
    let kind = part.kind.word();
    let id = part.id;
    let number = part.number;
    let octets = part.octets.len();
    format!(in alloc; "part {kind} id {id} number {number} octets {octets}\n")
}

// The abortion report that a body is; nothing if it isn't read as one.
fn print_abort(alloc: Global, body: &[u8]) -> Result<String, AllocError>
    ensures { IfOk result (λ t. string_bytes t ≡ abort_line body.now) }
{
    let Ok((id, reason)) = read_abort(body) else {
        return Ok(String::new(alloc));
    };
    let reason = reason.code();
    format!(in alloc; "abort id {id} reason {reason}\n")
}

// The verification report that a body is; nothing if it isn't read as one.
fn print_report(alloc: Global, subtype: u8, body: &[u8]) -> Result<String, AllocError>
    ensures { IfOk result (λ t. string_bytes t ≡ report_line subtype body.now) }
{
    let Some(report) = read_report(subtype, body) else {
        return Ok(String::new(alloc));
    };
    let request = octets_word(alloc, &report.request.value.to_be_bytes())?;
    match report.code {
        None => format!(in alloc; "report request {request}\n"),
        Some(code) => format!(in alloc; "report request {request} code {code}\n"),
    }
}
