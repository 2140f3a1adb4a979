//! How a mission lays its headers out.

ghost use Rattle.std.specs.Prelude.{◌≡◌};
ghost use Rattle.lpt_layout.specs.Layouts.{version_number, trailer, body_at};
ghost use Rattle.lpt_layout.specs.Own.{own_tm, own_tc, own_parts};
ghost use Rattle.lpt_layout.specs.Parts.{octets_at};

use crate::Width;
use lpt_packet::ERROR_CONTROL;

/// The PUS version of a secondary header. It is the number in the upper four bits of its first
/// octet.
#[derive(Clone, Copy)]
pub enum Version {
    /// ECSS-E-70-41A: version 1. The lower four bits of telemetry's first octet are spare, and its
    /// counter is a packet sub-counter of 8 bits, or absent.
    One,
    /// ECSS-E-ST-70-41C: version 2. The lower four bits of telemetry's first octet are the
    /// spacecraft time reference status.
    Two,
}

impl Version {
    /// The version number, 1 or 2.
    pub fn number(self) -> u8
        ensures { result ≡ version_number self }
    {
        match self {
            Version::One => 1,
            Version::Two => 2,
        }
    }
}

/// The layout of packets of one type: telemetry, or telecommands.
///
/// A secondary header is: the first octet, with the version; service type and message subtype, an
/// octet each; the counter; the source or destination ID; the time; spare octets. Which of these a
/// mission has, and how wide, ECSS-E-ST-70-41C leaves to it.
#[derive(Clone, Copy)]
pub struct Layout {
    /// Whether each packet ends in a packet error control.
    pub has_checksum: bool,
    /// The PUS version.
    pub version: Version,
    /// The message type counter of telemetry: 16 bits in version 2. A telecommand has none.
    pub counter: Width,
    /// The source ID of telecommands, or the destination ID of telemetry: mostly 0, 8 or 16 bits.
    pub user: Width,
    /// The octets of time of telemetry, with a preamble field if the mission has one: mostly 0
    /// to 16. A telecommand has none.
    pub time: u8,
    /// The spare octets at the end of the secondary header.
    pub spare: u8,
}

impl Layout {
    /// Telemetry of this project's profile.
    pub fn own_tm() -> Layout
        ensures { result ≡ own_tm }
    {
        Layout {
            has_checksum: true,
            version: Version::Two,
            counter: Width::Word,
            user: Width::Word,
            time: 4,
            spare: 0,
        }
    }

    /// Telecommands of this project's profile.
    pub fn own_tc() -> Layout
        ensures { result ≡ own_tc }
    {
        Layout {
            has_checksum: true,
            version: Version::Two,
            counter: Width::Absent,
            user: Width::Word,
            time: 0,
            spare: 0,
        }
    }

    /// The octets of the secondary header, 3 to 521.
    pub fn header(&self) -> usize
        ensures { result ≡ body_at self.now }
    {
        3 + self.counter.octets()
            + self.user.octets()
            + usize::from(self.time)
            + usize::from(self.spare)
    }

    /// The octets of the packet error control, 2 or none.
    pub fn control(&self) -> usize
        ensures { result ≡ trailer self.now.has_checksum }
    {
        if self.has_checksum { ERROR_CONTROL } else { 0 }
    }
}

/// The layout of the body of a part: its transaction identifier, its part sequence number, and then
/// its octets.
#[derive(Clone, Copy)]
pub struct PartLayout {
    /// The transaction identifier: mostly 16 or 32 bits.
    pub id: Width,
    /// The part sequence number: mostly 16 or 32 bits.
    pub number: Width,
}

impl PartLayout {
    /// Parts of this project's profile: 16 bits each.
    pub fn own() -> PartLayout
        ensures { result ≡ own_parts }
    {
        PartLayout {
            id: Width::Word,
            number: Width::Word,
        }
    }

    /// The octets before the part's own, 0 to 8.
    pub fn header(&self) -> usize
        ensures { result ≡ octets_at self.now }
    {
        self.id.octets() + self.number.octets()
    }
}
