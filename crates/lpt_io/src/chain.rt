//! Sources, one behind the other.

ghost use Rattle.std.specs.Prelude.{◌≡◌, ◌≤◌, ◌<◌, ◌+◌, length, take, drop, false, vec_len, MatchOption, IfSome, IfNone};
ghost use Rattle.std.specs.Io.KnownBytes.{Consumes, IsAtEnd, Keeps};
ghost use Rattle.lpt_text.specs.Streams.{read_failed};
ghost use Rattle.lpt_io.specs.Chains.{chain_left, has_failed, place_of, sources_of};

use lpt_text::Source;

/// The octets of sources, one behind the other. Of a source whose turn hasn't come nothing is read.
#[derive(Drop)]
pub struct Chain<S: Drop> {
    sources: Vec<S>,
    // The number of the source that is read, from 0.
    at: usize,
    failed: bool,
}

impl<S: Drop> Chain<S> {
    /// These sources, of which nothing was read by it.
    pub fn new(sources: Vec<S>) -> Self
        ensures sources { sources_of result ≡ sources.items }
        ensures place { place_of result ≡ 0 }
        ensures failed { has_failed result ≡ false }
    {
        Chain {
            sources,
            at: 0,
            failed: false,
        }
    }

    /// The sources.
    pub fn sources(&self) -> &[S]
        ensures { result.now ≡ sources_of self.now }
    {
        self.sources.as_slice()
    }

    /// The number of the source that is read, from 0; behind the last, how many there are.
    pub fn place(&self) -> usize
        ensures { result ≡ place_of self.now }
    {
        self.at
    }
}

impl<S: Source + Drop> Source for Chain<S> {
    ghost remaining = { λ c. chain_left S.remaining c };

    ghost failed = { λ c. has_failed c };

    fn read(&mut self, buf: &mut [u8]) -> Option<usize> {
        if buf.is_empty() {
            return Some(0);
        }
        while self.at < self.sources.len() {
            match self.read_here(buf) {
                Some(0) => {}
                Some(n) => return Some(n),
                None => {
                    self.failed = true;
                    return None;
                }
            }
        }
        Some(0)
    }
}

impl<S: Source + Drop> Chain<S> {
    // Reads of the source whose turn it is, and passes over it at its end.
    fn read_here(&mut self, buf: &mut [u8]) -> Option<usize>
        requires here { place_of self.old < vec_len self.old.sources }
        requires room { 0 < length buf.old }
        ensures bound { IfSome result (λ n. n ≤ length buf.new) }
        ensures bytes { MatchOption result
            (Keeps (chain_left S.remaining self.old) (chain_left S.remaining self.new))
            (λ n. Consumes (chain_left S.remaining self.old) (chain_left S.remaining self.new)
            (take n buf.new)) }
        ensures step { IfSome result (λ n. n ≡ 0 → place_of self.new ≡ place_of self.old + 1) }
        ensures sources { vec_len self.new.sources ≡ vec_len self.old.sources }
        ensures failed { has_failed self.new ≡ has_failed self.old }
    {
        let n = self.sources[self.at].read(buf)?;
        if n == 0 {
            self.at += 1;
        }
        Some(n)
    }
}
