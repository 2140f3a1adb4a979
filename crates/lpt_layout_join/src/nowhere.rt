//! A sink of which nothing is kept.

use lpt_text::Sink;

/// A sink that keeps nothing, for takers that write nothing.
#[derive(Drop)]
pub struct Nowhere {
    /// Whether a write has taken nothing.
    pub failed: bool,
}

impl Sink for Nowhere {
    ghost use Rattle.std.specs.Prelude.{None};

    ghost contents = { λ _. None };

    ghost flushed = { λ _. None };

    ghost failed = { λ out. out.failed };

    fn write(&mut self, buf: &[u8]) -> Option<usize> {
        self.failed = self.failed || buf.is_empty();
        Some(buf.len())
    }

    fn flush(&mut self) -> bool {
        true
    }
}
