//! Telecommands.

ghost use Rattle.std.specs.Prelude.{◌≡◌, ◌+◌, ◌≤◌, length, take, if◌then◌else◌, List, ℕ, Ok, IsTrue};
ghost use Rattle.lpt_packet.specs.Numbers.{be};
ghost use Rattle.lpt_pus.specs.Sizes.{longest_tc_body};
ghost use Rattle.lpt_c.specs.Buffers.{code_for, left_by, needed_by};
ghost use Rattle.lpt_c.specs.Codes.{all_done, range};
ghost use Rattle.lpt_c.specs.Commands.{tc_fits, tc_packet, tc_text, tc_read, tc_told};
ghost use Rattle.lpt_c.specs.Readings.{code_read, left_in};
ghost use Rattle.lpt_c.specs.Standing.{rest_in, rest_len, standing};

use crate::codes::{DONE, IDLE, RANGE, TOO_LONG};
use crate::filling::fill_packet;
use crate::rest::Rest;
use lpt_packet::{PRIMARY_HEADER, PacketKind, Seen, read_packet};
use lpt_pus::{LONGEST_TC_BODY, TC_HEADER, read_tc};

/// What a telecommand's headers say.
#[repr(C)]
#[derive(Clone, Copy)]
pub struct LptTcHead {
    /// The application process identifier, 0 to 2046.
    pub apid: u16,
    /// The packet sequence count, 0 to 16,383.
    pub count: u16,
    /// The acknowledgement flags, 0 to 15.
    pub flags: u8,
    /// The service type.
    pub service: u8,
    /// The message subtype.
    pub subtype: u8,
    /// The source ID.
    pub source: u16,
}

/// A telecommand that was read.
#[repr(C)]
#[derive(Clone, Copy)]
pub struct LptTc {
    /// What its headers say.
    pub head: LptTcHead,
    /// Where the body begins in the octets that were read, from 0.
    pub at: usize,
    /// How many octets the body has.
    pub len: usize,
}

/// Reads octets as a telecommand's whole packet.
///
/// It answers 0, and `out` says what it is; 101 of an idle packet; 1 to 6, the first fault of what
/// is no packet; 12, 13 or 11, the first fault of a packet that is no telecommand.
pub fn lpt_read_tc(octets: &[u8], out: &mut LptTc) -> u32
    ensures code { result ≡ code_read (tc_read octets.now) }
    ensures out { out.new ≡ left_in tc_told (tc_read octets.now) out.old }
{
    let packet = match read_packet(octets) {
        Err(fault) => return u32::from(fault.code()),
        Ok(Seen::Idle) => return IDLE,
        Ok(Seen::Packet(packet)) => packet,
    };
    match read_tc(&packet) {
        Err(fault) => u32::from(fault.code()),
        Ok((head, body)) => {
            *out = LptTc {
                head: LptTcHead {
                    apid: head.apid,
                    count: head.count,
                    flags: head.flags,
                    service: head.service,
                    subtype: head.subtype,
                    source: head.source,
                },
                at: PRIMARY_HEADER + TC_HEADER,
                len: body.len(),
            };
            DONE
        }
    }
}

/// Writes a telecommand's whole packet to the front of a buffer.
///
/// It answers 0; 102 if the APID is above 2046, the count above 16,383 or the flags above 15; 14 if
/// the packet would have more than 65,542 octets; 103 if the buffer is too short. At 0 and at 103
/// `needed` says how many octets the packet has, 13 more than the body.
#[tactic(auto, unfolding(crate::specs::Standing::rest_in))]
pub fn lpt_write_tc(head: &LptTcHead, body: &[u8], out: &mut [u8], needed: &mut usize) -> u32
    ensures code { result ≡ code_for (tc_text head.now body.now) out.old }
    ensures buffer { out.new ≡ left_by (tc_text head.now body.now) out.old }
    ensures needed { needed.new ≡ needed_by (tc_text head.now body.now) needed.old }
{
    write_tc(head, Rest::Given(body), out, needed)
}

/// Does the same with a body of `body_len` octets that stand in the buffer already, from `out[11]`
/// on, where they belong in the packet.
///
/// It answers as `lpt_write_tc` does for those octets. If the answer isn't 0 the buffer is as it
/// was.
#[tactic(auto, unfolding(crate::specs::Standing::rest_in))]
pub fn lpt_build_tc(head: &LptTcHead, body_len: usize, out: &mut [u8], needed: &mut usize) -> u32
    ensures code { result ≡ code_for (tc_text head.now (standing 11 body_len out.old)) out.old }
    ensures buffer { out.new ≡ left_by (tc_text head.now (standing 11 body_len out.old)) out.old }
    ensures needed { needed.new ≡ needed_by (tc_text head.now
        (standing 11 body_len out.old)) needed.old }
{
    write_tc(head, Rest::Standing(body_len), out, needed)
}

// Writes a telecommand's whole packet to the front of a buffer.
#[tactic(auto, using(crate::proofs::RestLemmas::length_rest))]
fn write_tc(head: &LptTcHead, body: Rest<'_>, out: &mut [u8], needed: &mut usize) -> u32
    ensures code { result ≡ code_for (tc_text head.now (rest_in body.entry 11 out.old)) out.old }
    ensures buffer { out.new ≡ left_by (tc_text head.now (rest_in body.entry 11 out.old)) out.old }
    ensures needed { needed.new ≡ needed_by (tc_text head.now
        (rest_in body.entry 11 out.old)) needed.old }
{
    if head.apid > 2046 || head.count > 16383 || head.flags > 15 {
        return RANGE;
    }
    if body.len() > LONGEST_TC_BODY {
        return TOO_LONG;
    }
    fill_tc(head, body, out, needed)
}

// Writes a telecommand that fits to the front of a buffer, if it has room.
fn fill_tc(head: &LptTcHead, body: Rest<'_>, out: &mut [u8], needed: &mut usize) -> u32
    requires head { IsTrue (tc_fits head.now) }
    requires body { rest_len body ≤ longest_tc_body }
    ensures code { result ≡ code_for (Ok (tc_packet head.now
        (rest_in body.entry 11 out.old))) out.old }
    ensures buffer { out.new ≡ left_by (Ok (tc_packet head.now
        (rest_in body.entry 11 out.old))) out.old }
    ensures needed { needed.new ≡ length (tc_packet head.now (rest_in body.entry 11 out.old)) }
{
    let source = head.source.to_be_bytes();
    let header = [
        0x20 + head.flags,
        head.service,
        head.subtype,
        source[0],
        source[1],
    ];
    let (apid, count) = (head.apid, head.count);
    fill_packet(PacketKind::Tc, apid, count, &header, body, out, needed)
}

/// Gives the request ID of a telecommand of this head, whatever its body: the first four octets of
/// its packet as a number.
///
/// It answers 0; 102 if the APID is above 2046, the count above 16,383 or the flags above 15.
pub fn lpt_request_id(head: &LptTcHead, id: &mut u32) -> u32
    ensures code { result ≡ (if tc_fits head.now then all_done else range) }
    ensures id { (body : List ℕ) → result ≡ all_done → be id.new 4
        ≡ take 4 (tc_packet head.now body) }
    ensures kept { result ≡ range → id.new ≡ id.old }
{
    if head.apid > 2046 || head.count > 16383 || head.flags > 15 {
        return RANGE;
    }
    *id = request_of(head);
    DONE
}

// The first four octets of a telecommand's packet as a number.
fn request_of(head: &LptTcHead) -> u32
    requires apid { head.now.apid ≤ 2046 }
    requires count { head.now.count ≤ 16383 }
    ensures { (body : List ℕ) → be result 4 ≡ take 4 (tc_packet head.now body) }
{
    let first = 0x1800 + head.apid;
    let second = 0xc000 + head.count;
    (u32::from(first) << 16) | u32::from(second)
}
