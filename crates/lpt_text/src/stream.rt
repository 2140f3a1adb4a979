//! Readers and writers that report their octets and their faults.

ghost use Rattle.std.specs.Prelude.{◌≡◌, ◌≤◌, ◌<◌, ℕ, List, Bool, false, length, take, Option, MatchOption, IfSome, IfErr, IsTrue, OnOk};
ghost use Rattle.std.specs.Io.KnownBytes.{Keeps, Appends, Consumes, IsAtEnd};
ghost use Rattle.lpt_text.specs.Streams.{read_failed, write_failed, flush_failed, AppendsPart, WriteEnds};
ghost use Rattle.lpt_text.specs.FromStdInside.{inner_of, has_failed};

use crate::fault::StreamFault;
use crate::flushing::Flushed;
use std::io;

/// Where a text is read from.
pub trait Source {
    // The octets that reads will give from here on, if they are known.
    ghost remaining: { Self → Option (List ℕ) };

    // Whether a read has failed.
    ghost failed: { Self → Bool };

    /// Reads octets to the front of `buf`, and gives how many: with room, none only at the end.
    ///
    /// Errors: `None` if the read failed. It gave no octets then, and the source has failed from
    /// then on.
    fn read(&mut self, buf: &mut [u8]) -> Option<usize>
        ensures bound { IfSome result (λ n. n ≤ length buf.new) }
        ensures bytes { MatchOption result (Keeps (remaining self.old) (remaining self.new))
            (λ n. Consumes (remaining self.old) (remaining self.new) (take n buf.new)
            × (n ≡ 0 → 0 < length buf.new → IsAtEnd (remaining self.new))) }
        ensures cause { failed self.new ≡ read_failed result (failed self.old) };
}

/// Where a text is written to.
pub trait Sink {
    // The octets that were written, if they are known.
    ghost contents: { Self → Option (List ℕ) };

    // The octets that were passed on, if they are known: the others are kept back.
    ghost flushed: { Self → Option (List ℕ) };

    // Whether a write has failed or taken nothing.
    ghost failed: { Self → Bool };

    /// Writes a front part of `buf`, and gives how many octets it took.
    ///
    /// Errors: `None` if the write failed. It took nothing then. After that, and after
    /// `Some(0)`, the sink has failed from then on.
    fn write(&mut self, buf: &[u8]) -> Option<usize>
        ensures bound { IfSome result (λ n. n ≤ length buf.now) }
        ensures bytes { MatchOption result (Keeps (contents self.old) (contents self.new))
            (λ n. Appends (contents self.old) (contents self.new) (take n buf.now)) }
        ensures cause { failed self.new ≡ write_failed result (failed self.old) };

    /// Passes on what the sink has kept back of what was written, and answers whether it could:
    /// then nothing is kept back. If not, the sink has failed from then on.
    fn flush(&mut self) -> bool
        ensures bytes { Keeps (contents self.old) (contents self.new) }
        ensures all { IsTrue result → flushed self.new ≡ contents self.new }
        ensures cause { failed self.new ≡ flush_failed result (failed self.old) };
}

/// A reader or a writer of std, with whether it has failed.
#[derive(Drop)]
pub struct FromStd<S> {
    inner: S,
    failed: bool,
}

impl<S> FromStd<S> {
    /// A reader or a writer that has not failed yet.
    pub fn new(inner: S) -> Self
        ensures inner { inner_of result ≡ inner }
        ensures failed { has_failed result ≡ false }
    {
        FromStd {
            inner,
            failed: false,
        }
    }

    /// The reader or the writer itself.
    pub fn inner(&self) -> &S
        ensures { result.now ≡ inner_of self.now }
    {
        &self.inner
    }

    /// The reader or the writer, taken out, so that a writer that keeps octets back can be flushed.
    pub fn into_inner(self) -> S
        ensures { result ≡ inner_of self }
    {
        let FromStd { inner, failed: _ } = self;
        inner
    }
}

impl<R: io::Read> Source for FromStd<R> {
    ghost remaining = { λ told. R.remaining (inner_of told) };

    ghost failed = { λ told. has_failed told };

    fn read(&mut self, buf: &mut [u8]) -> Option<usize> {
        match self.inner.read(buf) {
            Ok(n) => Some(n),
            Err(_) => {
                self.failed = true;
                None
            }
        }
    }
}

impl<W: Flushed> Sink for FromStd<W> {
    ghost contents = { λ told. W.contents (inner_of told) };

    ghost flushed = { λ told. W.flushed (inner_of told) };

    ghost failed = { λ told. has_failed told };

    fn write(&mut self, buf: &[u8]) -> Option<usize> {
        match self.inner.write(buf) {
            Ok(n) => {
                if n == 0 {
                    self.failed = true;
                }
                Some(n)
            }
            Err(_) => {
                self.failed = true;
                None
            }
        }
    }

    fn flush(&mut self) -> bool {
        let flushed = self.inner.flush_all().is_ok();
        if !flushed {
            self.failed = true;
        }
        flushed
    }
}

/// Writes a whole text, however little each write takes.
///
/// Errors: `Write` if a write failed or took nothing. The front part of the text that was taken
/// before stays written.
pub fn write_out<K: Sink>(out: &mut K, text: &[u8]) -> Result<(), StreamFault>
    ensures ok { OnOk result (Appends (K.contents out.old) (K.contents out.new) text.now) }

    // It fails only by a write that failed or took nothing.
    ensures fault { IfErr result (λ e. e ≡ StreamFault.Write) }
    ensures writer { WriteEnds result (K.failed out.old) (K.failed out.new) }
    ensures part { IfErr result (λ _.
        AppendsPart (K.contents out.old) (K.contents out.new) text.now) }
{
    let mut at = 0;
    while at < text.len() {
        let taken = out.write(&text[at..]).unwrap_or(0);
        if taken == 0 {
            return Err(StreamFault::Write);
        }
        at += taken;
    }
    Ok(())
}

/// Has a sink pass on what it has kept back of what was written.
///
/// Errors: `Write` if it couldn't.
pub fn flush_out<K: Sink>(out: &mut K) -> Result<(), StreamFault>
    ensures same { Keeps (K.contents out.old) (K.contents out.new) }
    ensures all { OnOk result (K.flushed out.new ≡ K.contents out.new) }
    ensures fault { IfErr result (λ e. e ≡ StreamFault.Write) }
    ensures writer { WriteEnds result (K.failed out.old) (K.failed out.new) }
{
    if out.flush() {
        Ok(())
    } else {
        Err(StreamFault::Write)
    }
}
