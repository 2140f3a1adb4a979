//! How much of a stream is no packet, and how many octets there are, in words.

ghost use Rattle.std.specs.Prelude.{◌≡◌};
ghost use Rattle.lpt_io.specs.Words.{octets_called};

use crate::end::tell_text;
use std::alloc::{AllocError, Global};

/// Tells how many packets of a stream have a fault, and how many octets are part of none, if
/// there are any. In front stands what stream it is, if there are several.
pub fn tell_no_packets(rt: &(impl Eprint + AllocGlobal), stream: &str, damaged: u64, stray: u64) {
    if damaged == 0 && stray == 0 {
        return;
    }
    if let Ok(text) = no_packets_text(rt.alloc(), damaged, stray) {
        tell_text(rt, format!(in rt.alloc(); "{stream}{text}"));
    }
}

/// What so many octets are called.
pub fn octets_word(count: usize) -> &'static str
    ensures { result.now ≡ octets_called count }
{
    if count == 1 { "octet" } else { "octets" }
}

// Those that aren't 0 of both numbers, in words. The only error is out of memory.
fn no_packets_text(alloc: Global, damaged: u64, stray: u64) -> Result<String, AllocError> {
    let packets = if damaged == 1 { "packet" } else { "packets" };
    let octets = if stray == 1 {
        "octet that is"
    } else {
        "octets that are"
    };
    if stray == 0 {
        return format!(in alloc; "{damaged} damaged {packets}");
    }
    if damaged == 0 {
        return format!(in alloc; "{stray} {octets} no packet");
    }
    format!(in alloc; "{damaged} damaged {packets}, {stray} {octets} no packet")
}
