//! Readers and writers that keep why they failed.

use lpt_text::Flushed;
use std::io::{self, Read, Write};

/// A reader or a writer with the error of its last call that failed.
#[derive(Drop)]
pub struct Watched<R> {
    inner: R,
    error: Option<io::Error>,
}

impl<R> Watched<R> {
    /// A reader or a writer of which no call has failed.
    pub fn new(inner: R) -> Self {
        Watched { inner, error: None }
    }

    /// Why its last call that failed did.
    pub fn error(&self) -> Option<&io::Error> {
        self.error.as_ref()
    }

    /// What is watched.
    pub fn inner(&self) -> &R {
        &self.inner
    }
}

impl<R: Read> Read for Watched<R> {
    fn read(&mut self, buf: &mut [u8]) -> io::Result<usize> {
        let done = self.inner.read(buf);
        if let Err(error) = &done {
            self.error = Some(*error);
        }
        done
    }
}

impl<W: Write> Write for Watched<W> {
    fn write(&mut self, buf: &[u8]) -> io::Result<usize> {
        let done = self.inner.write(buf);
        if let Err(error) = &done {
            self.error = Some(*error);
        }
        done
    }

    fn flush(&mut self) -> io::Result<()> {
        let done = self.inner.flush();
        if let Err(error) = &done {
            self.error = Some(*error);
        }
        done
    }
}

impl<W: Write> Flushed for Watched<W> {
    // Nothing is kept back here.
    fn flush_all(&mut self) -> io::Result<()> {
        self.flush()
    }
}
