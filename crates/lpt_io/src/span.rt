//! The octets of a source from one place up to another.

ghost use Rattle.std.specs.Prelude.{◌≡◌, ◌≤◌, ◌<◌, ◌-◌, length, take, drop, true, false, None, MatchOption, IfSome, IfNone, Option, ℕ};
ghost use Rattle.std.specs.Io.KnownBytes.{Consumes, IsAtEnd, Keeps};
ghost use Rattle.lpt_text.specs.Streams.{read_failed};
ghost use Rattle.lpt_io.specs.Spans.{before_of, has_failed, left_of, source_of, span_left};

use lpt_text::Source;

/// The octets of a source from one place up to another, or up to its end. Behind the last of them
/// nothing is read of the source.
#[derive(Drop)]
pub struct SourceSpan<S> {
    source: S,
    // How many octets are still to be passed over.
    before: u64,
    // How many there are to be given behind these, if there is a last one.
    left: Option<u64>,
    failed: bool,
}

impl<S> SourceSpan<S> {
    /// The octets of a source behind so many in front: so many of these, or all.
    pub fn new(source: S, before: u64, left: Option<u64>) -> Self
        ensures source { source_of result ≡ source }
        ensures before { before_of result ≡ before }
        ensures left { left_of result ≡ left }
        ensures failed { has_failed result ≡ false }
    {
        SourceSpan {
            source,
            before,
            left,
            failed: false,
        }
    }

    /// How many octets are still to be passed over. Behind a read that gave none these are lacking:
    /// the source ended before the first place.
    pub fn before(&self) -> u64
        ensures { result ≡ before_of self.now }
    {
        self.before
    }

    /// The source itself.
    pub fn source(&self) -> &S
        ensures { result.now ≡ source_of self.now }
    {
        &self.source
    }
}

impl<S: Source> Source for SourceSpan<S> {
    ghost remaining = { λ s. span_left S.remaining s };

    ghost failed = { λ s. has_failed s };

    fn read(&mut self, buf: &mut [u8]) -> Option<usize> {
        if buf.is_empty() {
            return Some(0);
        }
        let count = match self.pass_over(buf) {
            true => self.read_on(buf),
            false => None,
        };
        if count.is_none() {
            self.failed = true;
        }
        count
    }
}

impl<S: Source> SourceSpan<S> {
    // Passes over the octets in front, with this room, and answers whether it could: if not, the
    // source has failed.
    fn pass_over(&mut self, room: &mut [u8]) -> bool
        requires { 0 < length room.old }
        ensures same { Keeps (span_left S.remaining self.old) (span_left S.remaining self.new) }
        ensures settled { result ≡ true → 0 < before_of self.new
            → IsAtEnd (S.remaining (source_of self.new)) }
        ensures failed { has_failed self.new ≡ has_failed self.old }
    {
        while self.before > 0 {
            let asked = self.before.min(room.len() as u64) as usize;
            match self.source.read(&mut room[..asked]) {
                Some(0) => return true,
                Some(n) => self.before -= n as u64,
                None => return false,
            }
        }
        true
    }

    // Gives octets, if none is to be passed over any more, or none is left.
    fn read_on(&mut self, buf: &mut [u8]) -> Option<usize>
        requires room { 0 < length buf.old }
        requires settled { 0 < before_of self.old → IsAtEnd (S.remaining (source_of self.old)) }
        ensures bound { IfSome result (λ n. n ≤ length buf.new) }
        ensures bytes { MatchOption result
            (Keeps (span_left S.remaining self.old) (span_left S.remaining self.new))
            (λ n. Consumes (span_left S.remaining self.old) (span_left S.remaining self.new)
            (take n buf.new)
            × (n ≡ 0 → IsAtEnd (span_left S.remaining self.new))) }
        ensures failed { has_failed self.new ≡ has_failed self.old }
    {
        if self.before > 0 {
            return Some(0);
        }
        let Some(left) = self.left else {
            return self.source.read(buf);
        };
        let asked = left.min(buf.len() as u64) as usize;
        if asked == 0 {
            return Some(0);
        }
        let n = self.source.read(&mut buf[..asked])?;
        self.left = Some(left - n as u64);
        Some(n)
    }
}
