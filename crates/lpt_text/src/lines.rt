//! The lines of a text, found as it comes.

ghost use Rattle.std.specs.Prelude.{◌≤◌, length};

use crate::fault::StreamFault;
use crate::line_end::first_line_end;
use crate::reading::CHUNK;
use crate::stream::{Sink, Source, flush_out};
use crate::texts::{LONGEST_LINE, LONGEST_TEXT};
use std::alloc::Global;

/// The octets of a text that were read and not passed over yet.
///
/// A text has at most 16,777,216 octets. What it takes of memory depends on its longest line alone,
/// and of a line no more is read than shows that it has more than 140,000 octets.
#[derive(Drop)]
pub struct LineBuffer {
    octets: Vec<u8>,
    // How many of them were passed over.
    start: usize,
    // How many more the text may have.
    room: usize,
    ghost within: { start ≤ length octets.items },
}

impl LineBuffer {
    ghost use Rattle.std.specs.Prelude.{◌≡◌, ◌≢◌, ◌⊎◌, ◌+◌, ◌++◌, [], drop, Err, IfErr, OnOk};
    ghost use Rattle.std.specs.Io.KnownBytes.{Keeps};
    ghost use Rattle.lpt_text.specs.Lines.{octets_held, room_of, Fills, FindsLine};
    ghost use Rattle.lpt_text.specs.Streams.{WriteEnds};
    ghost use Rattle.lpt_text.specs.Texts.{longest_text};

    /// A text of which nothing was read.
    pub fn new(alloc: Global) -> Self
        ensures held { octets_held result ≡ [] }
        ensures room { room_of result ≡ longest_text }
    {
        LineBuffer {
            octets: Vec::new(alloc),
            start: 0,
            room: LONGEST_TEXT,
        }
    }

    /// The octets that were read and not passed over yet.
    pub fn octets_held(&self) -> &[u8]
        ensures { result.now ≡ octets_held self.now }
    {
        &self.octets[self.start..]
    }

    /// Passes over so many of the octets that are held.
    pub fn skip(&mut self, count: usize)
        requires { count ≤ length (octets_held self.old) }
        ensures held { octets_held self.new ≡ drop count (octets_held self.old) }
        ensures room { room_of self.new ≡ room_of self.old }
    {
        self.start += count;
    }

    /// Reads up to a line end, and gives its place among the octets that are held, which then has
    /// none before it.
    ///
    /// There is none if the text ends, or if more than 140,000 octets are held without one.
    /// Before each read `out` passes on what it has kept back, so whoever waits for it has it.
    ///
    /// Errors: `Read` if a read failed, or if more octets came than a text may have; `Write`
    /// if `out` failed; `Memory`, with which some octets of the text are lost.
    pub fn find_line<S: Source, K: Sink>(
        &mut self,
        source: &mut S,
        out: &mut K,
    ) -> Result<Option<usize>, StreamFault>
        ensures finds { FindsLine result self.old self.new (S.remaining source.old)
            (S.remaining source.new) (S.failed source.old) (S.failed source.new) }

        // What was written stays, and if something was read, all of it was passed on before.
        ensures same { Keeps (K.contents out.old) (K.contents out.new) }
        ensures passed { result ≢ Err StreamFault.Write →
            (source.new ≡ source.old) ⊎ (K.flushed out.new ≡ K.contents out.new) }
        ensures writer { WriteEnds result (K.failed out.old) (K.failed out.new) }
    {
        let mut searched = 0;
        loop {
            match first_line_end(&self.octets_held()[searched..]) {
                Some(place) => return Ok(Some(searched + place)),
                None => searched = self.octets_held().len(),
            }
            if searched > LONGEST_LINE {
                return Ok(None);
            }
            flush_out(out)?;
            match self.fill(source) {
                Ok(more) => {
                    if !more {
                        return Ok(None);
                    }
                }
                Err(fault) => return Err(fault),
            }
        }
    }

    // Reads some octets behind those that are held, and answers whether there were any.
    fn fill<S: Source>(&mut self, source: &mut S) -> Result<bool, StreamFault>
        ensures { Fills result self.old self.new (S.remaining source.old) (S.remaining source.new)
            (S.failed source.old) (S.failed source.new) }
    {
        let mut chunk = [0; CHUNK];
        let asked = self.room.clamp(1, CHUNK);
        let Some(count) = source.read(&mut chunk[..asked]) else {
            return Err(StreamFault::Read);
        };
        if count == 0 {
            return Ok(false);
        }
        if self.room == 0 {
            return Err(StreamFault::Read);
        }
        self.push(&chunk[..count])?;
        Ok(true)
    }

    // Holds octets behind the rest.
    fn push(&mut self, octets: &[u8]) -> Result<(), StreamFault>
        requires { length octets.now ≤ room_of self.old }
        ensures held { OnOk result (octets_held self.new ≡ octets_held self.old ++ octets.now) }
        ensures room { OnOk result (room_of self.new + length octets.now ≡ room_of self.old) }
        ensures fault { IfErr result (λ e. e ≡ StreamFault.Memory) }
    {
        self.compact();
        if self.octets.extend_from_slice(octets).is_err() {
            return Err(StreamFault::Memory);
        }
        self.room -= octets.len();
        Ok(())
    }

    // Gives up the octets that were passed over.
    fn compact(&mut self)
        ensures held { octets_held self.new ≡ octets_held self.old }
        ensures room { room_of self.new ≡ room_of self.old }
    {
        let left = self.octets.len() - self.start;
        self.octets.rotate_left(self.start);
        self.octets.truncate(left);
        self.start = 0;
    }
}
