//! What the packets that settled a pass's requests hold of memories.

ghost use Rattle.std.specs.Prelude.{◌≡◌, ◌++◌, IfOk, OnOk, take};
ghost use Rattle.lpt_ground.specs.Answers.{checked_len, checks_agree, octets_dumped, holds_checksum, octets_by};

use crate::{Asked, Awaits, Fate};
use lpt_packet::crc16;
use std::alloc::{AllocError, Global};

/// The octets of a report's packet in front of what its area holds, and behind a dump's octets.
const AREA_FRONT: usize = 25;

const AREA_END: usize = 4;

/// The octets that the reports of dumps hold, in the order of the requests. The only error is out
/// of memory.
pub fn dumped_octets(alloc: Global, asked: &[Asked]) -> Result<Vec<u8>, AllocError>
    ensures { IfOk result (λ v. v.items ≡ octets_dumped asked.now) }
{
    let mut octets = Vec::new(alloc);
    for one in asked {
        octets.extend_from_slice(one.fate.octets())?;
    }
    Ok(octets)
}

/// Whether the checksums that the reports of checks hold are those of this content, whose octets
/// the requests check in their order, and of all of it.
pub fn checks_agree(asked: &[Asked], content: &[u8]) -> bool
    ensures { result ≡ checks_agree asked.now content.now }
{
    let mut rest = content;
    for one in asked {
        let (front, behind) = rest.split_at(one.awaits.checked_len().min(rest.len()));
        if !one.fate.holds_checksum(front) {
            return false;
        }
        rest = behind;
    }
    rest.is_empty()
}

impl Fate {
    // The octets that the report of a dump holds.
    fn octets(&self) -> &[u8]
        ensures { result.now ≡ octets_by self.now }
    {
        let Fate::Done(octets) = self else {
            return &[];
        };
        let octets = octets.as_slice();
        if octets.len() < AREA_FRONT + AREA_END {
            return &[];
        }
        &octets[AREA_FRONT..octets.len() - AREA_END]
    }

    /// Whether the report of a check holds the checksum of these octets.
    pub fn holds_checksum(&self, octets: &[u8]) -> bool
        ensures { result ≡ holds_checksum self.now octets.now }
    {
        let Fate::Done(report) = self else {
            return false;
        };
        let report = report.as_slice();
        let at = |place: usize| u16::from(report.get(place).copied().unwrap_or(0));
        256 * at(AREA_FRONT) + at(AREA_FRONT + 1) == crc16(octets)
    }
}

impl Awaits {
    /// How many octets a check is of; of all else none.
    pub fn checked_len(self) -> usize
        ensures { result ≡ checked_len self }
    {
        match self {
            Awaits::Completion => 0,
            Awaits::Dumped(_) => 0,
            Awaits::Checked(place) => usize::from(place.len),
        }
    }
}
