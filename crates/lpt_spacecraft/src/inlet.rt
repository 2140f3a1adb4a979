//! What comes to a spacecraft that waits, and who hands it over.

ghost use Rattle.std.specs.Prelude.{◌≡◌, ◌⊎◌, ◌∷◌, [], List, Option, Bool, IfErr, IfOk};

use crate::Stop;
use lpt_packet::Octets;
use lpt_text::{Sink, StreamFault};

/// What happens next to a spacecraft that waits.
#[derive(Drop)]
pub enum Happening {
    /// A packet comes.
    Packet(Octets),
    /// So many octets at this place were passed over: they are no packet.
    Skipped { place: u64, len: u64 },
    /// Nothing came for a while.
    Nothing,
    /// No more will come, and the stream stopped there.
    End(Stop),
}

/// Where a spacecraft waits for what comes.
pub trait Inlet {
    ghost use Rattle.lpt_spacecraft.specs.declared.inlet.Happening.{Happening};
    ghost use Rattle.lpt_spacecraft.specs.Waiting.{Gains};
    ghost use Rattle.lpt_text.specs.Streams.{ReadEnds};

    // What it gave so far, if that is known.
    ghost given: { Self → Option (List Happening) };

    // Whether it has failed.
    ghost failed: { Self → Bool };

    /// Waits for what happens next, but not longer than up to the next tick. The sink has passed on
    /// all that was written to it.
    ///
    /// Errors: `Read` if it failed; `Memory`. It gave nothing then.
    fn next<K: Sink>(&mut self, out: &K) -> Result<Happening, StreamFault>
        requires { K.flushed out.now ≡ K.contents out.now }
        ensures ok { IfOk result (λ x. Gains (given self.old) (given self.new) (x ∷ [])) }
        ensures err { IfErr result (λ _. Gains (given self.old) (given self.new) []) }
        ensures fault { IfErr result (λ e. (e ≡ StreamFault.Read) ⊎ (e ≡ StreamFault.Memory)) }
        ensures cause { ReadEnds ⊥ result (failed self.old) (failed self.new) };
}

/// Who hands over what comes to a spacecraft that waits.
pub trait Relay {
    ghost use Rattle.lpt_spacecraft.specs.declared.inlet.Happening.{Happening};
    ghost use Rattle.lpt_spacecraft.specs.Waiting.{Gains};

    // What was handed over, if that is known.
    ghost handed: { Self → Option (List Happening) };

    // Whether more is taken.
    ghost is_open: { Self → Bool };

    /// Hands it over, and answers whether more is taken.
    fn hand(&mut self, what: Happening) -> bool
        ensures handed { Gains (handed self.old) (handed self.new) (what ∷ []) }
        ensures more { result ≡ is_open self.new };
}
