//! A source of which octets are read ahead, to be looked at before they are given.

ghost use Rattle.std.specs.Prelude.{◌≤◌};

use lpt_text::Source;

/// How many octets may be held.
const ROOM: usize = 24;

/// A source, and the octets that were read of it and not given yet.
#[derive(Drop)]
pub(crate) struct Ahead<S> {
    source: S,
    octets: [u8; 24],
    // How many of them are held.
    have: usize,
    ghost within: { have ≤ 24 },
}

impl<S> Ahead<S> {
    ghost use Rattle.std.specs.Prelude.{◌≡◌, [], drop};
    ghost use Rattle.lpt_capture.specs.States.{octets_held, source_of};

    /// A source of which nothing was read.
    pub(crate) fn new(source: S) -> Self
        ensures held { octets_held result ≡ [] }
        ensures source { source_of result ≡ source }
    {
        Ahead {
            source,
            octets: [0; ROOM],
            have: 0,
        }
    }

    /// The source itself.
    pub(crate) fn source(&self) -> &S
        ensures { result.now ≡ source_of self.now }
    {
        &self.source
    }

    /// The octets that were read and not given yet.
    pub(crate) fn octets_held(&self) -> &[u8]
        ensures { result.now ≡ octets_held self.now }
    {
        &self.octets[..self.have]
    }

    /// Passes over so many octets that are held, or over all.
    pub(crate) fn skip(&mut self, count: usize)
        ensures held { octets_held self.new ≡ drop count (octets_held self.old) }
        ensures source { source_of self.new ≡ source_of self.old }
    {
        let passed = count.min(self.have);
        self.octets.rotate_left(passed);
        self.have -= passed;
    }
}

impl<S: Source> Ahead<S> {
    ghost use Rattle.std.specs.Prelude.{◌≡◌, ◌<◌, ◌≤◌, ◌+◌, true, false, length, take, MatchOption, IfSome, IfNone};
    ghost use Rattle.std.specs.Io.KnownBytes.{Consumes, IsAtEnd, Keeps};
    ghost use Rattle.lpt_capture.specs.States.{octets_held, octets_known, source_of};

    /// Reads until so many octets are held, or the source is at its end, and answers whether it
    /// could: if not, the source has failed.
    pub(crate) fn hold(&mut self, count: usize) -> bool
        requires { count ≤ 24 }
        ensures same { Keeps (octets_known S.remaining self.old) (octets_known S.remaining self.new) }
        ensures enough { result ≡ true → length (octets_held self.new) < count
            → IsAtEnd (S.remaining (source_of self.new)) }
        ensures cause { result ≡ false → S.failed (source_of self.new) ≡ true }
    {
        while self.octets_held().len() < count {
            match self.read_more(count) {
                Some(0) => return true,
                Some(_) => {}
                None => return false,
            }
        }
        true
    }

    // Reads some octets behind those that are held, so that there are no more than so many.
    fn read_more(&mut self, count: usize) -> Option<usize>
        requires room { length (octets_held self.old) < count }
        requires most { count ≤ 24 }
        ensures same { Keeps (octets_known S.remaining self.old) (octets_known S.remaining self.new) }
        ensures more { IfSome result
            (λ n. length (octets_held self.new) ≡ length (octets_held self.old) + n) }
        ensures end { IfSome result (λ n. n ≡ 0 → IsAtEnd (S.remaining (source_of self.new))) }
        ensures cause { IfNone result (S.failed (source_of self.new) ≡ true) }
    {
        let mut chunk = [0; ROOM];
        let n = self.source.read(&mut chunk[..count - self.have])?;
        let end = self.have + n;
        self.octets[self.have..end].copy_from_slice(&chunk[..n]);
        self.have = end;
        Some(n)
    }

    /// Gives octets to the front of `buf`, and gives how many: with room, none only at the end.
    ///
    /// Errors: `None` if the source failed. It gave no octets then.
    pub(crate) fn read(&mut self, buf: &mut [u8]) -> Option<usize>
        ensures bound { IfSome result (λ n. n ≤ length buf.new) }
        ensures bytes { MatchOption result
            (Keeps (octets_known S.remaining self.old) (octets_known S.remaining self.new))
            (λ n. Consumes (octets_known S.remaining self.old) (octets_known S.remaining self.new)
            (take n buf.new)
            × (n ≡ 0 → 0 < length buf.new → IsAtEnd (octets_known S.remaining self.new))) }
        ensures cause { IfNone result (S.failed (source_of self.new) ≡ true) }
    {
        let held = self.octets_held();
        if held.is_empty() {
            return self.source.read(buf);
        }
        let n = held.len().min(buf.len());
        buf[..n].copy_from_slice(&held[..n]);
        self.skip(n);
        Some(n)
    }
}
