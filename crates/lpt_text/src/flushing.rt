//! Writers of std that report what they have passed on.

ghost use Rattle.std.specs.Prelude.{◌≡◌, ℕ, List, Option, None, OnOk};
ghost use Rattle.std.specs.Io.Buffered.{writer_inner};
ghost use Rattle.std.specs.Io.KnownBytes.{Keeps};

use std::alloc::Allocator;
use std::io;
use std::io::{BufWriter, Write};

/// A writer of std that reports what it has passed on of what was written.
pub trait Flushed: Write {
    // The octets that it has passed on, if they are known: the others are kept back.
    ghost flushed: { Self → Option (List ℕ) } = { λ _. None };

    /// Passes on what was kept back.
    ///
    /// Errors: those of a write, and then some may be kept back.
    fn flush_all(&mut self) -> io::Result<()>
        ensures bytes { Keeps (Self.contents self.old) (Self.contents self.new) }
        ensures all { OnOk result (flushed self.new ≡ Self.contents self.new) };
}

impl<W: Write + Drop, A: Allocator> Flushed for BufWriter<W, A> {
    // What is in the buffer is kept back.
    ghost flushed = { λ w. W.contents (writer_inner w) };

    #[tactic(auto, using(crate::proofs::StreamLemmas::nothing_behind))]
    fn flush_all(&mut self) -> io::Result<()> {
        self.flush()
    }
}

impl<A: Allocator> Flushed for Vec<u8, A> {
    // Nothing is kept back.
    ghost flushed = { ⟦<Vec<u8, A> as Write>⟧.contents };

    fn flush_all(&mut self) -> io::Result<()> {
        Ok(())
    }
}
