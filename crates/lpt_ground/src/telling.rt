//! What a packet that was heard says of a request.

ghost use Rattle.std.specs.Prelude.{◌≡◌, ◌+◌, ◌^◌, ◌<◌, ◌≤◌, length, option_map};
ghost use Rattle.lpt_packet.specs.Numbers.{IsOctets};
ghost use Rattle.lpt_pus.specs.Telemetry.{telemetry};
ghost use Rattle.lpt_ground.specs.Passes.{has_come};
ghost use Rattle.lpt_ground.specs.Telling.{fate_by, is_answer, is_area, is_dump, is_success, report_of, said_of, said_with, settles, waits};

use crate::{Asked, Awaits, Fate, Place, Terms};
use lpt_packet::laws::seen_is_read;
use lpt_packet::{Octets, Seen, crc16, read_packet};
use lpt_pus::{TmHead, read_tm};
use lpt_requests::{FailureNotice, read_any_report};

/// The service types of verification and of memory management (ECSS-E-ST-70-41C).
const VERIFICATION: u8 = 1;

const MEMORY: u8 = 6;

/// The message subtypes of reports: of the start and of the completion of an execution, of a dump
/// and of a check.
const START: u8 = 3;

const COMPLETION: u8 = 7;

const DUMP_REPORT: u8 = 6;

const CHECK_REPORT: u8 = 10;

/// The octets of an area's report in front of what it holds, and those of a checksum.
const HEAD: usize = 8;

const CHECKSUM: usize = 2;

/// What a report says of a request.
#[derive(Clone, Copy, Debug, PartialEq, Eq)]
pub enum Said {
    /// It was carried out, and if something was asked, answered.
    Done,
    /// It failed, with this notice.
    Failed(FailureNotice),
}

impl Said {
    // The fate of a request of which these octets say it.
    pub(crate) fn fate(self, octets: Octets) -> Fate
        ensures { result ≡ fate_by self octets }
    {
        match self {
            Said::Done => Fate::Done(octets),
            Said::Failed(notice) => Fate::Failed(notice),
        }
    }
}

impl Terms {
    /// The report of the pass that octets are: what its head says, and its body.
    #[tactic(auto, unfolding(crate::specs::Telling::report_of, lpt_pus::specs::Telemetry::telemetry_in))]
    pub fn report_of<'a>(&self, octets: &'a [u8]) -> Option<(TmHead, &'a [u8])>
        requires { IsOctets octets.now }
        ensures { option_map (λ x. telemetry x.0 x.1.now) result ≡ report_of self.now octets.now }
    {
        seen_is_read();
        let Ok(Seen::Packet(packet)) = read_packet(octets) else {
            return None;
        };
        let Ok((head, body)) = read_tm(&packet) else {
            return None;
        };
        if head.apid == self.apid && head.destination == self.source {
            Some((head, body))
        } else {
            None
        }
    }
}

impl Asked {
    // Whether it waits, and telemetry settles it.
    pub(crate) fn is_settled_by(&self, starts: bool, head: &TmHead, body: &[u8]) -> bool
        ensures { result ≡ settles starts (telemetry head.now body.now) self.now }
    {
        self.fate.waits() && self.telemetry_said(starts, head, body).is_some()
    }

    // What telemetry says of it.
    #[tactic(auto, unfolding(crate::specs::Telling::said_of))]
    pub(crate) fn telemetry_said(&self, starts: bool, head: &TmHead, body: &[u8]) -> Option<Said>
        ensures { result ≡ said_of starts (telemetry head.now body.now) self.now }
    {
        if head.service == VERIFICATION {
            let report = read_any_report(head.subtype, body)?;
            if report.request.value != self.id {
                return None;
            }
            return said_with(report.failure, self.awaits.is_success(starts, head.subtype));
        }
        if head.service == MEMORY && self.awaits.is_answer(head.subtype, body) {
            return Some(Said::Done);
        }
        None
    }
}

// A failure with this notice, or otherwise a success that is awaited or isn't.
fn said_with(failure: Option<FailureNotice>, awaited: bool) -> Option<Said>
    ensures { result ≡ said_with failure awaited }
{
    match failure {
        Some(notice) => Some(Said::Failed(notice)),
        None if awaited => Some(Said::Done),
        None => None,
    }
}

impl Fate {
    // Whether nothing was heard that settles it.
    pub(crate) fn waits(&self) -> bool
        ensures { result ≡ waits self.now }
    {
        matches!(self, Fate::Waiting)
    }

    // Whether a packet was heard that settles it.
    pub(crate) fn has_come(&self) -> bool
        ensures { result ≡ has_come self.now }
    {
        matches!(self, Fate::Done(_))
    }
}

impl Awaits {
    // Whether a report of success, of this subtype, is the one that is awaited.
    fn is_success(self, starts: bool, subtype: u8) -> bool
        ensures { result ≡ is_success starts self subtype }
    {
        match self {
            Awaits::Completion => subtype == COMPLETION || (starts && subtype == START),
            Awaits::Dumped(_) => false,
            Awaits::Checked(_) => false,
        }
    }

    // Whether a report of the memory service, of this subtype, is the answer that is awaited.
    fn is_answer(self, subtype: u8, body: &[u8]) -> bool
        ensures { result ≡ is_answer self subtype body.now }
    {
        match self {
            Awaits::Completion => false,
            Awaits::Dumped(place) => subtype == DUMP_REPORT && place.is_dump(body),
            Awaits::Checked(place) => subtype == CHECK_REPORT && place.is_area(CHECKSUM, body),
        }
    }
}

impl Place {
    // Whether a body has one area, of this place, with so many octets behind its address and
    // length.
    #[tactic(auto, unfolding(crate::specs::Telling::is_area))]
    fn is_area(self, more: usize, body: &[u8]) -> bool
        requires { more < 2 ^ 32 }
        ensures { result ≡ is_area self more body.now }
    {
        if body.len() != HEAD + more {
            return false;
        }
        let address = u32::from_be_bytes([body[2], body[3], body[4], body[5]]);
        let len = u16::from_be_bytes([body[6], body[7]]);
        body[0] == self.memory && body[1] == 1 && address == self.address && len == self.len
    }

    // Whether a body has the octets of this place, and their checksum.
    #[tactic(auto, unfolding(crate::specs::Telling::is_dump, crate::specs::Telling::is_area))]
    fn is_dump(self, body: &[u8]) -> bool
        ensures { result ≡ is_dump self body.now }
    {
        let end = HEAD + usize::from(self.len);
        if !self.is_area(usize::from(self.len) + CHECKSUM, body) {
            return false;
        }
        if body.len() != end + CHECKSUM {
            return false;
        }
        let checksum = u16::from_be_bytes([body[end], body[end + 1]]);
        crc16(&body[HEAD..end]) == checksum
    }
}
