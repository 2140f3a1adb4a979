//! What happens at the spacecraft's end, on standard error.

ghost use Rattle.std.specs.Prelude.{None};

use lpt_io::tell_text;
use lpt_spacecraft::{Listener, Told, print_told};

/// Tells on standard error what happens, or only that a source has no free name left, and where
/// octets are no packet.
#[derive(Drop)]
pub struct Log<'a, R> {
    rt: &'a R,
    // The source whose names have no source in them.
    source: u16,
    all: bool,
    // Whether octets were passed over.
    has_skipped: bool,
}

impl<'a, R: Eprint + AllocGlobal> Log<'a, R> {
    /// A log of all, or only of sources that have no free name left, and of octets that are no
    /// packet.
    pub fn new(rt: &'a R, source: u16, all: bool) -> Self {
        Log {
            rt,
            source,
            all,
            has_skipped: false,
        }
    }

    /// Whether octets were passed over.
    pub fn has_skipped(&self) -> bool {
        self.has_skipped
    }

    // Tells what isn't told of elsewhere, if it is more than what a packet did.
    fn warn(&self, told: Told) {
        let alloc = self.rt.alloc();
        let text = match told {
            Told::UsedUp(direction, source) => {
                let way = direction.word();
                format!(in alloc;
                    "source {source} has no free name left ({way}); --reuse frees names"
                )
            }
            Told::Skipped { place, len } => {
                format!(in alloc;
                    "octet {place}: no packet begins there, octets passed over: {len}"
                )
            }
            _ => return,
        };
        tell_text(self.rt, text);
    }
}

impl<R: Eprint + AllocGlobal> Listener for Log<'_, R> {
    ghost heard = { λ _. None };

    fn tell(&mut self, told: Told) {
        if let Told::Skipped { .. } = told {
            self.has_skipped = true;
        }
        if self.all {
            if let Ok(text) = print_told(self.rt.alloc(), self.source, told) {
                let _ = self.rt.eprint(text.as_str());
            }
        } else {
            self.warn(told);
        }
    }
}

/// Tells nothing.
#[derive(Drop)]
pub struct Silent;

impl Listener for Silent {
    ghost heard = { λ _. None };

    fn tell(&mut self, told: Told) {
        let _ = told;
    }
}
