//! Packets as a line or three of text.

ghost use Rattle.std.specs.Prelude.{◌≡◌, ◌≢◌, IsErrOf, Err, true};
ghost use Rattle.lpt_text.specs.Streams.{WriteEnds};
ghost use Rattle.lpt_part.specs.Splitting.{IsPartSize};
ghost use Rattle.lpt_script.specs.Ends.{DecodeEnds};

use lpt_script_text::print_decoded;
use lpt_text::{Sink, StreamFault, write_out};
use std::alloc::Global;

/// Writes what octets are as a packet, for the part size `p` (4 to 1,024 octets), and answers whether
/// that is a fault.
///
/// Errors: `Write` if a write failed or took nothing, after a front part of the text; `Memory`,
/// before anything was written.
pub fn decode<K: Sink>(
    alloc: Global,
    octets: &[u8],
    p: u32,
    out: &mut K,
) -> Result<bool, StreamFault>
    requires { IsPartSize p }
    ensures ends { DecodeEnds p octets.now result (K.contents out.old) (K.contents out.new) }
    ensures writer { WriteEnds result (K.failed out.old) (K.failed out.new) }
{
    let decoded = match print_decoded(alloc, octets, p) {
        Ok(decoded) => decoded,
        Err(_) => return Err(StreamFault::Memory),
    };
    match write_out(out, decoded.text.as_bytes()) {
        Ok(()) => Ok(decoded.faulty),
        Err(fault) => Err(fault),
    }
}
