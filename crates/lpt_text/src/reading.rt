//! A text read to its end.

ghost use Rattle.std.specs.Prelude.{◌≡◌, ℕ, List, IfOk, IfErr};
ghost use Rattle.std.specs.Io.KnownBytes.{Consumes};
ghost use Rattle.lpt_text.specs.Reading.{ReadTo};

use crate::fault::StreamFault;
use crate::stream::Source;
use crate::texts::LONGEST_TEXT;
use std::alloc::Global;

/// How many octets are asked for at a time.
pub(crate) const CHUNK: usize = 16_384;

/// Where the reading of a text ended.
#[derive(Clone, Copy, PartialEq, Eq)]
pub enum End {
    /// At the text's end.
    Whole,
    /// At a read that failed.
    Failed,
    /// Past 16,777,216 octets.
    TooLong,
}

/// Reads a text to its end, to a failed read or past 16,777,216 octets, and gives what was read.
///
/// Errors: `Memory`. What was read until then is lost.
pub fn read_text<S: Source>(alloc: Global, reader: &mut S) -> Result<(Vec<u8>, End), StreamFault>
    // The text is all that was consumed, and the end says why there is no more of it.
    ensures ok { IfOk result (λ p. ReadTo p.1 p.0.items (S.remaining reader.old)
        (S.remaining reader.new) (S.failed reader.old) (S.failed reader.new)) }

    // If memory runs out, some octets are consumed and lost, but no read has failed.
    ensures err { IfErr result (λ e. (e ≡ StreamFault.Memory)
        × (S.failed reader.new ≡ S.failed reader.old)
        × ((read : List ℕ) × Consumes (S.remaining reader.old) (S.remaining reader.new) read)) }
{
    let mut text = Vec::new(alloc);
    while text.len() <= LONGEST_TEXT {
        let mut chunk = [0; CHUNK];
        let Some(count) = reader.read(&mut chunk) else {
            return Ok((text, End::Failed));
        };
        if count == 0 {
            return Ok((text, End::Whole));
        }
        if text.extend_from_slice(&chunk[..count]).is_err() {
            return Err(StreamFault::Memory);
        }
    }
    Ok((text, End::TooLong))
}
