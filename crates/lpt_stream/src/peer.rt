//! A source at whose other end somebody waits for what is written.

ghost use Rattle.std.specs.Prelude.{◌≡◌, ◌≤◌, ◌<◌, ℕ, List, Bool, length, take, Option, MatchOption, IfSome};
ghost use Rattle.std.specs.Io.KnownBytes.{Keeps, Consumes, IsAtEnd};
ghost use Rattle.lpt_text.specs.Streams.{read_failed};

use lpt_text::{Sink, Source};

/// Where octets come from that are sent by someone who waits for what is written to a sink.
pub trait Peer {
    // The octets that reads will give from here on, if they are known.
    ghost remaining: { Self → Option (List ℕ) };

    // Whether a read has failed.
    ghost failed: { Self → Bool };

    /// Reads octets to the front of `buf`, and gives how many: with room, none only at the end. The
    /// sink has passed on all that was written to it.
    ///
    /// Errors: `None` if the read failed. It gave no octets then.
    fn read<K: Sink>(&mut self, out: &K, buf: &mut [u8]) -> Option<usize>
        requires { K.flushed out.now ≡ K.contents out.now }
        ensures bound { IfSome result (λ n. n ≤ length buf.new) }
        ensures bytes { MatchOption result (Keeps (remaining self.old) (remaining self.new))
            (λ n. Consumes (remaining self.old) (remaining self.new) (take n buf.new)
            × (n ≡ 0 → 0 < length buf.new → IsAtEnd (remaining self.new))) }
        ensures cause { failed self.new ≡ read_failed result (failed self.old) };
}

impl<S: Source> Peer for S {
    ghost remaining = { S.remaining };

    ghost failed = { S.failed };

    fn read<K: Sink>(&mut self, out: &K, buf: &mut [u8]) -> Option<usize> {
        <S as Source>::read(self, buf)
    }
}
