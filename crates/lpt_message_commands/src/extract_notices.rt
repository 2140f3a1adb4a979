//! What is told of dump reports as they come.

use lpt_extract::{Listener, Notice, Span};
use lpt_io::{Machine, Voice, octets_word, tell_place};
use std::alloc::{AllocError, Global};

/// Standard error, which is told of each area, and of each report that isn't read.
#[derive(Drop)]
pub struct Telling<'a, R: Machine> {
    pub rt: &'a R,
    pub voice: Voice,
}

impl<R: Machine> Listener for Telling<'_, R> {
    ghost use Rattle.std.specs.Prelude.{None};

    ghost heard = { λ _. None };

    fn tell(&mut self, notice: Notice) {
        if matches!(notice, Notice::Taken(_)) && !self.voice.tells() {
            return;
        }
        if let Ok(Some(text)) = notice_text(self.rt.alloc(), notice) {
            self.voice.clear(self.rt);
            tell_place(self.rt, text.as_str());
        }
    }
}

// What is reported of an area or a report, if something is. The only error is out of memory.
fn notice_text(alloc: Global, notice: Notice) -> Result<Option<String>, AllocError> {
    let text = match notice {
        Notice::Taken(span) => area_text(alloc, span)?,
        Notice::PastEnd(span, place) => {
            passed_text(alloc, span, place, "the area ends past address 4294967295")?
        }
        Notice::WrongChecksum(span, place) => {
            passed_text(alloc, span, place, "the checksum is wrong")?
        }
        Notice::Unread(len, place) => {
            let octets = octets_word(len);
            format!(in alloc;
                "a dump report passed over at octet {place}: its body of {len} {octets} isn't read"
            )?
        }
        Notice::OtherMemory(_)
        | Notice::OtherApid(_)
        | Notice::OfPart(_)
        | Notice::Damaged
        | Notice::Stray => return Ok(None),
    };
    Ok(Some(text))
}

// Where the octets of an area stand, and how many they are.
fn area_text(alloc: Global, span: Span) -> Result<String, AllocError> {
    let Span {
        memory,
        address,
        len,
    } = span;
    let octets = octets_word(len);
    format!(in alloc; "memory {memory}, address {address}: {len} {octets}")
}

// That an area was passed over, at which place, and why.
fn passed_text(alloc: Global, span: Span, place: u64, why: &str) -> Result<String, AllocError> {
    let area = area_text(alloc, span)?;
    format!(in alloc; "{area} passed over at octet {place}: {why}")
}
