//! How many pieces of a stream were passed over, and why.

ghost use Rattle.std.specs.Prelude.{◌≡◌, length};
ghost use Rattle.lpt_carried.specs.Carried.{cut};
ghost use Rattle.lpt_stream.specs.Pieces.{IsSealedBy};
ghost use Rattle.lpt_carried.specs.Losses.{loses};
ghost use Rattle.lpt_carried.specs.Tallies.{nothing_noted, piece_noted, with_octets};

use crate::{Name, PieceKind, Wanted, Why};

/// How many pieces of a stream were passed over, and why. A count ends at 2^64 - 1, and so does a
/// place, which is how many octets of the stream come before it.
#[derive(Clone, Copy)]
pub struct Skips {
    /// Octets that came, those of parts that are wanted too.
    pub octets: u64,
    /// Packets of another APID.
    pub of_others: u64,
    /// The APID of the first of these.
    pub apid: Option<u16>,
    /// Packets of the other direction.
    pub turned: u64,
    /// Parts of number 0.
    pub zeros: u64,
    /// Parts whose body isn't read for the part size.
    pub unread: u64,
    /// The first part size by which one of these would be read.
    pub part_size: Option<u32>,
    /// Where the packet of the first of these begins.
    pub unread_at: Option<u64>,
    /// Parts of another name than the one that is wanted.
    pub unnamed: u64,
    /// The first such name.
    pub name: Option<Name>,
    /// Packets that carry no part, idle ones too.
    pub bare: u64,
    /// Pieces that are no packet, but as long as a header says.
    pub damaged: u64,
    /// Octets with which no packet begins.
    pub stray: u64,
    /// Where the first of these is.
    pub stray_at: Option<u64>,
}

impl Skips {
    /// Skips of which nothing was noted.
    pub fn new() -> Skips
        ensures { result ≡ nothing_noted }
    {
        Skips {
            octets: 0,
            of_others: 0,
            apid: None,
            turned: 0,
            zeros: 0,
            unread: 0,
            part_size: None,
            unread_at: None,
            unnamed: 0,
            name: None,
            bare: 0,
            damaged: 0,
            stray: 0,
            stray_at: None,
        }
    }

    /// Notes the next piece of a stream, of this kind and these octets, if these parts are wanted:
    /// of a wanted part it counts the octets alone. If packets have a checksum, that of a whole one
    /// was taken before, and is right.
    pub fn note(&mut self, wanted: &Wanted, kind: PieceKind, octets: &[u8])
        requires { IsSealedBy (cut wanted.now.reading) kind octets.now }
        ensures noted { self.new
            ≡ piece_noted wanted.now self.old (record { kind = kind; octets = octets.now }) }
    {
        match wanted.why(kind, octets) {
            Why::Taken => {}
            Why::Damaged => self.damaged = self.damaged.saturating_add(1),
            Why::Stray(len) => {
                self.stray = self.stray.saturating_add(len as u64);
                self.stray_at = self.stray_at.or(Some(self.octets));
            }
            Why::OtherApid(apid) => {
                self.of_others = self.of_others.saturating_add(1);
                self.apid = self.apid.or(Some(apid));
            }
            Why::OtherDirection => self.turned = self.turned.saturating_add(1),
            Why::NoNumber => self.zeros = self.zeros.saturating_add(1),
            Why::Unread(part_size) => {
                self.unread = self.unread.saturating_add(1);
                self.part_size = self.part_size.or(part_size);
                self.unread_at = self.unread_at.or(Some(self.octets));
            }
            Why::OtherName(name) => {
                self.unnamed = self.unnamed.saturating_add(1);
                self.name = self.name.or(Some(name));
            }
            Why::NoPart => self.bare = self.bare.saturating_add(1),
        }
        self.pass(octets);
    }

    /// Counts the octets of the next piece, which is a part that is wanted.
    pub fn pass(&mut self, octets: &[u8])
        ensures { self.new ≡ with_octets self.old (length octets.now) }
    {
        self.octets = self.octets.saturating_add(octets.len() as u64);
    }

    /// Whether what was passed over may hold messages that are wanted, so that what became whole
    /// needn't be all of them: parts weren't read, if those of any name are wanted; or reading
    /// ended at octets that are no packet, since packets have no checksum by which a next one is
    /// found.
    pub fn loses(&self, wanted: &Wanted) -> bool
        ensures { result ≡ loses wanted.now self.now }
    {
        let is_cut = !wanted.reading.layout.has_checksum && self.stray != 0;
        is_cut || (wanted.name.is_none() && self.unread != 0)
    }
}
