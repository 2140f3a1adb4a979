//! Telemetry.

ghost use Rattle.std.specs.Prelude.{◌≡◌, ◌+◌, ◌≤◌, length, Ok, IsTrue};
ghost use Rattle.lpt_pus.specs.Sizes.{longest_tm_body};
ghost use Rattle.lpt_c.specs.Buffers.{code_for, left_by, needed_by};
ghost use Rattle.lpt_c.specs.Readings.{code_read, left_in};
ghost use Rattle.lpt_c.specs.Standing.{rest_in, rest_len, standing};
ghost use Rattle.lpt_c.specs.Telemetry.{tm_fits, tm_packet, tm_text, tm_read, tm_told};

use crate::codes::{DONE, IDLE, RANGE, TOO_LONG};
use crate::filling::fill_packet;
use crate::rest::Rest;
use lpt_packet::{PRIMARY_HEADER, PacketKind, Seen, read_packet};
use lpt_pus::{LONGEST_TM_BODY, TM_HEADER, read_tm};

/// What telemetry's headers say.
#[repr(C)]
#[derive(Clone, Copy)]
pub struct LptTmHead {
    /// The application process identifier, 0 to 2046.
    pub apid: u16,
    /// The packet sequence count, 0 to 16,383.
    pub count: u16,
    /// The spacecraft time reference status, 0 to 15.
    pub status: u8,
    /// The service type.
    pub service: u8,
    /// The message subtype.
    pub subtype: u8,
    /// The message type counter.
    pub counter: u16,
    /// The destination ID.
    pub destination: u16,
    /// The time at which the message was made, in ticks of the sender's clock.
    pub time: u32,
}

/// Telemetry that was read.
#[repr(C)]
#[derive(Clone, Copy)]
pub struct LptTm {
    /// What its headers say.
    pub head: LptTmHead,
    /// Where the body begins in the octets that were read, from 0.
    pub at: usize,
    /// How many octets the body has.
    pub len: usize,
}

/// Reads octets as telemetry's whole packet.
///
/// It answers 0, and `out` says what it is; 101 of an idle packet; 1 to 6, the first fault of what
/// is no packet; 12, 13 or 11, the first fault of a packet that is no telemetry.
pub fn lpt_read_tm(octets: &[u8], out: &mut LptTm) -> u32
    ensures code { result ≡ code_read (tm_read octets.now) }
    ensures out { out.new ≡ left_in tm_told (tm_read octets.now) out.old }
{
    let packet = match read_packet(octets) {
        Err(fault) => return u32::from(fault.code()),
        Ok(Seen::Idle) => return IDLE,
        Ok(Seen::Packet(packet)) => packet,
    };
    match read_tm(&packet) {
        Err(fault) => u32::from(fault.code()),
        Ok((head, body)) => {
            *out = LptTm {
                head: LptTmHead {
                    apid: head.apid,
                    count: head.count,
                    status: head.status,
                    service: head.service,
                    subtype: head.subtype,
                    counter: head.counter,
                    destination: head.destination,
                    time: head.time,
                },
                at: PRIMARY_HEADER + TM_HEADER,
                len: body.len(),
            };
            DONE
        }
    }
}

/// Writes telemetry's whole packet to the front of a buffer. The status is written as 0, whatever
/// the head's is.
///
/// It answers 0; 102 if the APID is above 2046, the count above 16,383 or the status above 15; 14
/// if the packet would have more than 65,542 octets; 103 if the buffer is too short. At 0 and at
/// 103 `needed` says how many octets the packet has, 19 more than the body.
#[tactic(auto, unfolding(crate::specs::Standing::rest_in))]
pub fn lpt_write_tm(head: &LptTmHead, body: &[u8], out: &mut [u8], needed: &mut usize) -> u32
    ensures code { result ≡ code_for (tm_text head.now body.now) out.old }
    ensures buffer { out.new ≡ left_by (tm_text head.now body.now) out.old }
    ensures needed { needed.new ≡ needed_by (tm_text head.now body.now) needed.old }
{
    write_tm(head, Rest::Given(body), out, needed)
}

/// Does the same with a body of `body_len` octets that stand in the buffer already, from `out[17]`
/// on, where they belong in the packet.
///
/// It answers as `lpt_write_tm` does for those octets. If the answer isn't 0 the buffer is as it
/// was.
#[tactic(auto, unfolding(crate::specs::Standing::rest_in))]
pub fn lpt_build_tm(head: &LptTmHead, body_len: usize, out: &mut [u8], needed: &mut usize) -> u32
    ensures code { result ≡ code_for (tm_text head.now (standing 17 body_len out.old)) out.old }
    ensures buffer { out.new ≡ left_by (tm_text head.now (standing 17 body_len out.old)) out.old }
    ensures needed { needed.new ≡ needed_by (tm_text head.now
        (standing 17 body_len out.old)) needed.old }
{
    write_tm(head, Rest::Standing(body_len), out, needed)
}

// Writes telemetry's whole packet to the front of a buffer.
#[tactic(auto, using(crate::proofs::RestLemmas::length_rest))]
fn write_tm(head: &LptTmHead, body: Rest<'_>, out: &mut [u8], needed: &mut usize) -> u32
    ensures code { result ≡ code_for (tm_text head.now (rest_in body.entry 17 out.old)) out.old }
    ensures buffer { out.new ≡ left_by (tm_text head.now (rest_in body.entry 17 out.old)) out.old }
    ensures needed { needed.new ≡ needed_by (tm_text head.now
        (rest_in body.entry 17 out.old)) needed.old }
{
    if head.apid > 2046 || head.count > 16383 || head.status > 15 {
        return RANGE;
    }
    if body.len() > LONGEST_TM_BODY {
        return TOO_LONG;
    }
    fill_tm(head, body, out, needed)
}

// Writes telemetry that fits to the front of a buffer, if it has room.
fn fill_tm(head: &LptTmHead, body: Rest<'_>, out: &mut [u8], needed: &mut usize) -> u32
    requires head { IsTrue (tm_fits head.now) }
    requires body { rest_len body ≤ longest_tm_body }
    ensures code { result ≡ code_for (Ok (tm_packet head.now
        (rest_in body.entry 17 out.old))) out.old }
    ensures buffer { out.new ≡ left_by (Ok (tm_packet head.now
        (rest_in body.entry 17 out.old))) out.old }
    ensures needed { needed.new ≡ length (tm_packet head.now (rest_in body.entry 17 out.old)) }
{
    let counter = head.counter.to_be_bytes();
    let destination = head.destination.to_be_bytes();
    let time = head.time.to_be_bytes();
    let header = [
        0x20,
        head.service,
        head.subtype,
        counter[0],
        counter[1],
        destination[0],
        destination[1],
        time[0],
        time[1],
        time[2],
        time[3],
    ];
    let (apid, count) = (head.apid, head.count);
    fill_packet(PacketKind::Tm, apid, count, &header, body, out, needed)
}
