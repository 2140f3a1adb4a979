//! At which place of a file a reader of captures is.

ghost use Rattle.std.specs.Prelude.{◌≡◌, ◌<◌, ◌++◌, ℕ, List, [], None, Some, length, drop};
ghost use Rattle.lpt_capture.specs.declared.place.Place.{Place};
ghost use Rattle.lpt_capture.specs.Captured.{found_in, order_of, records_of};
ghost use Rattle.lpt_capture.specs.States.{fault_at, found_at, IsSettled};

use crate::CaptureFault;
use crate::numbers::{is_pcapng, number_in};

/// How many octets a capture's own header has.
pub(crate) const FILE_HEADER: usize = 24;

/// How many octets a record's header has.
pub(crate) const RECORD_HEADER: usize = 16;

/// The link type of packets of a kind that the user chooses, the first of sixteen.
const LINK_TYPE: u32 = 147;

/// How many octets a packet has at most.
const LONGEST: u32 = 65_542;

/// At which place of a file a reader of captures is.
#[derive(Clone, Copy)]
pub enum Place {
    /// At the file's front: it isn't known yet whether the file is a capture.
    Front,
    /// In octets that are no capture.
    Plain,
    /// In a record, or behind it.
    Record(Record),
    /// Behind the last record.
    Ended,
    /// At the end of a capture that ends within the record that begins at this octet.
    Cut(u64),
    /// Behind a fault.
    Broken(CaptureFault),
}

/// A record of which octets are read.
#[derive(Clone, Copy)]
pub struct Record {
    /// Whether the numbers of the capture have their last octet first.
    pub(crate) turned: bool,
    /// Where it begins in the file.
    pub(crate) at: u64,
    /// Where the next one begins.
    pub(crate) next: u64,
    /// How many of its octets are still to come.
    pub(crate) left: usize,
}

impl Place {
    /// What is wrong, if that was found.
    pub(crate) fn fault(self) -> Option<CaptureFault>
        ensures { result ≡ fault_at self }
    {
        match self {
            Place::Broken(fault) => Some(fault),
            Place::Cut(at) => Some(CaptureFault::Short(at)),
            Place::Front | Place::Plain | Place::Record(_) | Place::Ended => None,
        }
    }
}

/// The place in front of a file that is no capture, of which four octets are looked at, or all.
pub(crate) fn behind_other(head: &[u8]) -> Place
    requires { order_of head.now ≡ None }
    ensures found { (b : List ℕ) → (length head.now < 4 → b ≡ [])
        → found_in (head.now ++ b) ≡ found_at result (head.now ++ b) }
    ensures behind { result ≡ Place.Front → ⊥ }
{
    if is_pcapng(head) {
        Place::Broken(CaptureFault::Pcapng)
    } else {
        Place::Plain
    }
}

/// The place behind the header of a capture, of which no octets are wanting but at the file's end.
pub(crate) fn behind_file_header(head: &[u8], turned: bool) -> Place
    requires { order_of head.now ≡ Some turned }
    ensures found { (b : List ℕ) → (length head.now < 24 → b ≡ [])
        → found_in (head.now ++ b) ≡ found_at result (drop 24 head.now ++ b) }
    ensures behind { result ≡ Place.Front → ⊥ }
{
    if head.len() < FILE_HEADER {
        return Place::Broken(CaptureFault::Header);
    }
    let link_type = number_in(head, turned, 20);
    if link_type != LINK_TYPE {
        return Place::Broken(CaptureFault::LinkType(link_type));
    }
    Place::Record(Record {
        turned,
        at: 0,
        next: 24,
        left: 0,
    })
}

/// The place behind the header of a record that begins at a place, of which no octets are wanting
/// but at the file's end.
#[tactic(auto, using(crate::proofs::CaptureLemmas::record_whole, crate::proofs::CaptureLemmas::record_short, crate::proofs::CaptureLemmas::record_none))]
pub(crate) fn behind_record_header(head: &[u8], turned: bool, at: u64) -> Place
    ensures found { (b : List ℕ) → (length head.now < 16 → b ≡ [])
        → records_of turned at (head.now ++ b) ≡ found_at result (drop 16 head.now ++ b) }
    ensures settled { IsSettled result }
{
    if head.is_empty() {
        return Place::Ended;
    }
    if head.len() < RECORD_HEADER {
        return Place::Cut(at);
    }
    let size = number_in(head, turned, 8);
    if size == 0 || size > LONGEST {
        return Place::Broken(CaptureFault::Size(at, size));
    }
    Place::Record(Record {
        turned,
        at,
        next: at.saturating_add(16 + size as u64),
        left: size as usize,
    })
}
