//! The octets of a source, of which the first are kept.

ghost use Rattle.std.specs.Prelude.{◌≤◌, ◌+◌, vec_capacity, vec_len};

use lpt_text::Source;
use std::alloc::{AllocError, Global};

/// The octets of a source. The first that it gives are kept, up to so many.
#[derive(Drop)]
pub struct Keeping<S> {
    source: S,
    kept: Vec<u8>,
    // How many more are to be kept.
    room: usize,
    ghost fits: { vec_len kept + room ≤ vec_capacity kept },
}

impl<S: Drop> Keeping<S> {
    ghost use Rattle.std.specs.Prelude.{◌≡◌, [], IfOk};
    ghost use Rattle.lpt_io.specs.Keeping.{source_of, KeepsFirst};

    /// The octets of a source that gave none yet, of which the first so many are to be kept. The
    /// only error is out of memory: later none is needed.
    pub fn new(alloc: Global, source: S, most: usize) -> Result<Self, AllocError>
        ensures source { IfOk result (λ s. source_of s ≡ source) }
        ensures first { IfOk result (λ s. KeepsFirst s most []) }
    {
        let kept = Vec::with_capacity(alloc, most)?;
        Ok(Keeping {
            source,
            kept,
            room: most,
        })
    }
}

impl<S> Keeping<S> {
    ghost use Rattle.std.specs.Prelude.{◌≡◌, ◌-◌, ◌++◌, length, take};
    ghost use Rattle.lpt_io.specs.Keeping.{kept_of, room_of, source_of};

    /// The source itself.
    pub fn source(&self) -> &S
        ensures { result.now ≡ source_of self.now }
    {
        &self.source
    }

    /// What is kept: the first octets of all that was read, up to so many.
    pub fn octets_kept(&self) -> &[u8]
        ensures { result.now ≡ kept_of self.now }
    {
        &self.kept
    }

    // Keeps the front of octets that came, as far as there is room.
    fn keep(&mut self, octets: &[u8])
        ensures source { source_of self.new ≡ source_of self.old }
        ensures kept { kept_of self.new ≡ kept_of self.old ++ take (room_of self.old) octets.now }
        ensures room { room_of self.new ≡ room_of self.old - length octets.now }
    {
        let len = octets.len().min(self.room);
        match self.kept.extend_from_slice(&octets[..len]) {
            Ok(()) => self.room -= len,
            Err(_) => unreachable!(),
        }
    }
}

impl<S: Source> Source for Keeping<S> {
    ghost use Rattle.std.specs.Prelude.{◌≡◌, ◌<◌, ◌++◌, ℕ, List, length, take, IfSome, MatchOption};
    ghost use Rattle.std.specs.Io.KnownBytes.{Consumes, IsAtEnd, Keeps};
    ghost use Rattle.lpt_text.specs.Streams.{read_failed};
    ghost use Rattle.lpt_io.specs.Keeping.{source_of, KeepsFirst};

    ghost remaining = { λ s. S.remaining (source_of s) };

    ghost failed = { λ s. S.failed (source_of s) };

    /// Reads octets of the source, and keeps them as far as they are among the first.
    #[tactic(auto, using(crate::proofs::KeepingLemmas::first_kept))]
    fn read(&mut self, buf: &mut [u8]) -> Option<usize>
        ensures bound { IfSome result (λ n. n ≤ length buf.new) }
        ensures bytes { MatchOption result
            (Keeps (S.remaining (source_of self.old)) (S.remaining (source_of self.new)))
            (λ n. Consumes (S.remaining (source_of self.old)) (S.remaining (source_of self.new))
            (take n buf.new)
            × (n ≡ 0 → 0 < length buf.new → IsAtEnd (S.remaining (source_of self.new)))) }
        ensures cause { S.failed (source_of self.new)
            ≡ read_failed result (S.failed (source_of self.old)) }
        ensures first { (most : ℕ) (before : List ℕ) → KeepsFirst self.old most before
            → MatchOption result (KeepsFirst self.new most before)
            (λ n. KeepsFirst self.new most (before ++ take n buf.new)) }
    {
        let count = self.source.read(buf)?;
        self.keep(&buf[..count]);
        Some(count)
    }
}
