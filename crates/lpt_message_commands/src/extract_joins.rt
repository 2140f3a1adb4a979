//! The octets of dump reports that may come in parts, joined.

use crate::eaches::tell_lost;
use crate::extract_notices::Telling;
use lpt_carried::{Name, Reading};
use lpt_extract::{Extracted, Hearers, Sink, TakerAs, Wanted, extract_joined_as};
use lpt_io::{Machine, Packets, Voice};
use lpt_layout_each::NewsAs;
use lpt_text::StreamFault;

/// Standard error, which is told of parts that never became whole.
#[derive(Drop)]
struct Losses<'a, R: Machine> {
    rt: &'a R,
    voice: Voice,
    // The source that is configured.
    user: u32,
    reading: &'a Reading,
    // Whether there were such parts.
    lost: bool,
}

impl<R: Machine> TakerAs for Losses<'_, R> {
    ghost use Rattle.std.specs.Prelude.{None};

    ghost heard = { λ _. None };

    fn take(&mut self, name: Name, news: &NewsAs) -> Result<(), StreamFault> {
        if let NewsAs::Given(_) = news {
            return Ok(());
        }
        self.lost = true;
        self.voice.clear(self.rt);
        match tell_lost(self.rt, self.user, self.reading, 0, name, news) {
            Ok(()) => Ok(()),
            Err(_) => Err(StreamFault::Memory),
        }
    }
}

/// Writes the octets that dump reports hold which may come in parts that are read so. Beside what
/// that gave it answers whether parts never became whole, which standard error was told.
pub fn extract_parts<R: Machine, K: Sink>(
    rt: &R,
    voice: Voice,
    user: u32,
    reading: &Reading,
    wanted: &Wanted,
    source: &mut Packets<R>,
    out: &mut K,
) -> (Result<Extracted, StreamFault>, bool) {
    let mut hearers = Hearers {
        listener: Telling { rt, voice },
        taker: Losses {
            rt,
            voice,
            user,
            reading,
            lost: false,
        },
    };
    let alloc = rt.alloc();
    let extracted = extract_joined_as(alloc, wanted, reading, source, out, &mut hearers);
    (extracted, hearers.taker.lost)
}
