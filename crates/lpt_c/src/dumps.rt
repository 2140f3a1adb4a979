//! Reports of dumps.

ghost use Rattle.std.specs.Prelude.{◌≡◌, ◌+◌, ◌≤◌, length, drop, take, option_map, IfSome};
ghost use Rattle.lpt_memory.specs.Fields.{all_areas};
ghost use Rattle.lpt_memory.specs.Requests.{front_load_area};
ghost use Rattle.lpt_c.specs.Dumps.{area_dumped, place_in, area_placed};
ghost use Rattle.lpt_c.specs.Readings.{code_read, left_in};

use crate::codes::{CHECKSUM, DONE, NO_REPORT, RANGE};
use lpt_memory::fields::{head, long, octets, word};
use lpt_packet::crc16;

/// An area of a report that answers a dump.
#[repr(C)]
#[derive(Clone, Copy)]
pub struct LptDumped {
    /// The identifier of the memory.
    pub memory: u8,
    /// How many areas the report has.
    pub areas: u8,
    /// The address of the area's first octet.
    pub address: u32,
    /// Where the area's octets begin in the body that was read, from 0.
    pub at: usize,
    /// How many octets the area has.
    pub len: usize,
}

// An area of a body, its octets by their place.
#[derive(Clone, Copy)]
pub(crate) struct AreaPlace {
    pub address: u32,
    pub at: usize,
    pub len: u16,
    pub checksum: u16,
}

/// The octets of a body before its areas, and of an area before and behind its own.
const BODY_HEAD: usize = 2;

const AREA_HEAD: usize = 6;

const AREA_TAIL: usize = 2;

/// Reads one area of a message's body as the report that answers a dump, by its number from 0.
///
/// It answers 0, and `out` says what it is; 105 if the body is no such report; 102 if it has no
/// area of this number; 6 if the area's checksum isn't that of its octets.
#[tactic(auto, unfolding(lpt_memory::specs::Requests::request_in))]
pub fn lpt_read_dump(body: &[u8], number: usize, out: &mut LptDumped) -> u32
    ensures code { result ≡ code_read (area_dumped body.now number) }
    ensures out { out.new ≡ left_in (λ x. x) (area_dumped body.now number) out.old }
{
    let Some((_, areas, _)) = head(body) else {
        return NO_REPORT;
    };
    let Some(found) = find_area(body, areas, number) else {
        return NO_REPORT;
    };
    let Some(area) = found else {
        return RANGE;
    };
    let len = usize::from(area.len);
    if crc16(&body[area.at..area.at + len]) != area.checksum {
        return CHECKSUM;
    }
    *out = LptDumped {
        memory: body[0],
        areas: body[1],
        address: area.address,
        at: area.at,
        len,
    };
    DONE
}

// The area of a number, if there is one, of so many behind a body's head; none of a body that isn't
// just these.
fn find_area(body: &[u8], areas: u8, number: usize) -> Option<Option<AreaPlace>>
    requires { 2 ≤ length body.now }
    ensures value { option_map (λ r. option_map (place_in body.now) r) result
        ≡ option_map (area_placed 2 number) (all_areas front_load_area areas (drop 2 body.now)) }
    ensures within { IfSome result (λ r. IfSome r (λ p. p.at + p.len ≤ length body.now)) }
{
    let mut at = BODY_HEAD;
    let mut found = None;
    for k in 0..areas {
        let (area, behind) = area_at(body, at)?;
        if usize::from(k) == number {
            found = Some(area);
        }
        at = behind;
    }
    if at != body.len() {
        return None;
    }
    Some(found)
}

// The area that stands at a place of the body, and the place behind it.
#[tactic(auto, unfolding(lpt_memory::specs::Requests::front_load_area))]
fn area_at(body: &[u8], at: usize) -> Option<(AreaPlace, usize)>
    requires { at ≤ length body.now }
    ensures value { option_map (λ x. ((place_in body.now x.0).area, drop x.1 body.now)) result
        ≡ front_load_area (drop at body.now) }
    ensures placed { IfSome result (λ x. x.0.at ≡ at + 6) }
    ensures within { IfSome result (λ x. x.0.at + x.0.len ≤ length body.now) }
    ensures behind { IfSome result (λ x. x.1 ≡ at + (8 + x.0.len)) }
    ensures inside { IfSome result (λ x. x.1 ≤ length body.now) }
{
    let (address, rest) = long(&body[at..])?;
    let (len, rest) = word(rest)?;
    let (_, rest) = octets(rest, len)?;
    let (checksum, _) = word(rest)?;
    let area = AreaPlace {
        address,
        at: at + AREA_HEAD,
        len,
        checksum,
    };
    Some((area, area.at + usize::from(len) + AREA_TAIL))
}
