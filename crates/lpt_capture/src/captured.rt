//! The octets of a capture's records, as the capture is read (classic pcap).

ghost use Rattle.std.specs.Prelude.{◌≡◌, ◌<◌, ◌≤◌, ◌⊎◌, ℕ, List, [], true, false, Some, length, take, Option, MatchOption, IfSome, IfNone};
ghost use Rattle.std.specs.Io.KnownBytes.{Consumes, IsAtEnd, Keeps};
ghost use Rattle.lpt_text.specs.Streams.{read_failed};
ghost use Rattle.lpt_capture.specs.declared.place.Place.{Place};
ghost use Rattle.lpt_capture.specs.Captured.{Finding, found_in, order_of};
ghost use Rattle.lpt_capture.specs.States.{ahead_of, fault_at, finding_ahead, found_at, front_size, has_failed, octets_held, octets_known, octets_left, place_of, source_of, Gives, IsBroken, IsSettled, Reads};

use crate::CaptureFault;
use crate::ahead::Ahead;
use crate::numbers::order_in;
use crate::place::{
    FILE_HEADER, Place, RECORD_HEADER, Record, behind_file_header, behind_other,
    behind_record_header,
};
use lpt_text::Source;

/// How many octets show whether a file is a capture.
const MAGIC: usize = 4;

/// A source of the octets that the records of a capture have. What doesn't begin as a capture is
/// given as it is. If a capture ends within a record, that is no failure: those octets of the
/// record are given that are there, and `fault` tells of it.
#[derive(Drop)]
pub struct Captured<S> {
    ahead: Ahead<S>,
    place: Place,
    failed: bool,
}

impl<S> Captured<S> {
    /// The octets of what this source gives, of which nothing was read.
    pub fn new(source: S) -> Self
        ensures source { source_of (ahead_of result) ≡ source }
        ensures failed { has_failed result ≡ false }
        ensures held { octets_held (ahead_of result) ≡ [] }
        ensures found { (b : List ℕ) → found_at (place_of result) b ≡ found_in b }
    {
        Captured {
            ahead: Ahead::new(source),
            place: Place::Front,
            failed: false,
        }
    }

    /// The source itself.
    pub fn source(&self) -> &S
        ensures { result.now ≡ source_of (ahead_of self.now) }
    {
        self.ahead.source()
    }

    /// What is wrong with the capture, if that was found.
    pub fn fault(&self) -> Option<CaptureFault>
        ensures { result ≡ fault_at (place_of self.now) }
    {
        self.place.fault()
    }
}

impl<S: Source> Source for Captured<S> {
    ghost remaining = { λ c. octets_left S.remaining c };

    ghost failed = { λ c. has_failed c };

    // What is still to be found stays the same but for the octets that are given: also what is
    // wrong with the capture. A read fails only if one of the source did, or something else is
    // wrong than that the capture ends within a record.
    fn read(&mut self, buf: &mut [u8]) -> Option<usize>
        ensures bound { IfSome result (λ n. n ≤ length buf.new) }
        ensures bytes { MatchOption result
            (Keeps (octets_left S.remaining self.old) (octets_left S.remaining self.new))
            (λ n. Consumes (octets_left S.remaining self.old) (octets_left S.remaining self.new)
            (take n buf.new)
            × (n ≡ 0 → 0 < length buf.new → IsAtEnd (octets_left S.remaining self.new))) }
        ensures cause { has_failed self.new ≡ read_failed result (has_failed self.old) }
        ensures found { Reads result (finding_ahead S.remaining self.old)
            (finding_ahead S.remaining self.new)
            buf.new }
        ensures fault { IfNone result ((S.failed (source_of (ahead_of self.new)) ≡ true)
            ⊎ IsBroken (place_of self.new)) }
    {
        if buf.is_empty() {
            return Some(0);
        }
        let count = self.read_on(buf);
        if count.is_none() {
            self.failed = true;
        }
        count
    }
}

impl<S: Source> Captured<S> {
    // Gives octets of packets, and gives how many: none only at the end.
    fn read_on(&mut self, buf: &mut [u8]) -> Option<usize>
        requires { 0 < length buf.old }
        ensures bound { IfSome result (λ n. n ≤ length buf.new) }
        ensures found { Reads result (finding_ahead S.remaining self.old)
            (finding_ahead S.remaining self.new)
            buf.new }
        ensures cause { IfNone result ((S.failed (source_of (ahead_of self.new)) ≡ true)
            ⊎ IsBroken (place_of self.new)) }
        ensures failed { has_failed self.new ≡ has_failed self.old }
    {
        if !self.settle() {
            return None;
        }
        match self.place {
            Place::Front | Place::Broken(_) => None,
            Place::Plain => self.ahead.read(buf),
            Place::Record(current) => self.read_record(current, buf),
            Place::Ended => Some(0),
            Place::Cut(_) => Some(0),
        }
    }

    // Gives octets of a record.
    fn read_record(&mut self, current: Record, buf: &mut [u8]) -> Option<usize>
        requires place { self.old.place ≡ Place.Record current }
        requires some { 0 < current.left }
        requires room { 0 < length buf.old }
        ensures bound { IfSome result (λ n. n ≤ length buf.new) }
        ensures found { Reads result (finding_ahead S.remaining self.old)
            (finding_ahead S.remaining self.new)
            buf.new }
        ensures cause { IfNone result ((S.failed (source_of (ahead_of self.new)) ≡ true)
            ⊎ IsBroken (place_of self.new)) }
        ensures failed { has_failed self.new ≡ has_failed self.old }
    {
        let asked = current.left.min(buf.len());
        let n = self.ahead.read(&mut buf[..asked])?;
        if n == 0 {
            self.place = Place::Cut(current.at);
            return Some(0);
        }
        self.place = Place::Record(Record {
            turned: current.turned,
            at: current.at,
            next: current.next,
            left: current.left - n,
        });
        Some(n)
    }

    // Reads the headers in front of the next octets of packets, and answers whether it could: if
    // not, the source has failed.
    fn settle(&mut self) -> bool
        ensures same { Gives (finding_ahead S.remaining self.old)
            (finding_ahead S.remaining self.new) [] }
        ensures settled { result ≡ true → IsSettled (place_of self.new) }
        ensures cause { result ≡ false → S.failed (source_of (ahead_of self.new)) ≡ true }
        ensures failed { has_failed self.new ≡ has_failed self.old }
    {
        if !self.settle_front() {
            return false;
        }
        match self.place {
            Place::Record(current) if current.left == 0 => self.settle_record(current),
            _ => true,
        }
    }

    // Reads the front of the file, if that wasn't done yet.
    fn settle_front(&mut self) -> bool
        ensures same { Gives (finding_ahead S.remaining self.old)
            (finding_ahead S.remaining self.new) [] }
        ensures behind { result ≡ true → (place_of self.new ≡ Place.Front → ⊥) }
        ensures cause { result ≡ false → S.failed (source_of (ahead_of self.new)) ≡ true }
        ensures failed { has_failed self.new ≡ has_failed self.old }
    {
        match self.place {
            Place::Front => {}
            _ => return true,
        }
        if !self.hold_front() {
            return false;
        }
        match order_in(self.ahead.octets_held()) {
            None => self.place = behind_other(self.ahead.octets_held()),
            Some(turned) => {
                self.place = behind_file_header(self.ahead.octets_held(), turned);
                self.ahead.skip(FILE_HEADER);
            }
        }
        true
    }

    // Holds the front of a file, as far as it is looked at.
    fn hold_front(&mut self) -> bool
        ensures same { Keeps (octets_known S.remaining (ahead_of self.old))
            (octets_known S.remaining (ahead_of self.new)) }
        ensures enough { result ≡ true
            → length (octets_held (ahead_of self.new))
            < front_size (order_of (octets_held (ahead_of self.new)))
            → IsAtEnd (S.remaining (source_of (ahead_of self.new))) }
        ensures cause { result ≡ false → S.failed (source_of (ahead_of self.new)) ≡ true }
        ensures place { place_of self.new ≡ place_of self.old }
        ensures failed { has_failed self.new ≡ has_failed self.old }
    {
        if !self.ahead.hold(MAGIC) {
            return false;
        }
        match order_in(self.ahead.octets_held()) {
            None => true,
            Some(_) => self.ahead.hold(FILE_HEADER),
        }
    }

    // Reads the header of the record behind this one.
    fn settle_record(&mut self, current: Record) -> bool
        requires place { self.old.place ≡ Place.Record current }
        requires none { current.left ≡ 0 }
        ensures same { Gives (finding_ahead S.remaining self.old)
            (finding_ahead S.remaining self.new) [] }
        ensures settled { result ≡ true → IsSettled (place_of self.new) }
        ensures cause { result ≡ false → S.failed (source_of (ahead_of self.new)) ≡ true }
        ensures failed { has_failed self.new ≡ has_failed self.old }
    {
        if !self.ahead.hold(RECORD_HEADER) {
            return false;
        }
        self.place = behind_record_header(self.ahead.octets_held(), current.turned, current.next);
        self.ahead.skip(RECORD_HEADER);
        true
    }
}
