//! What outlasts a spacecraft that dies, kept before anything that it made is passed on.

ghost use Rattle.std.specs.Prelude.{◌≡◌, ◌⊎◌, ◌||◌, ℕ, Bool, false, [], List, map, Option, None, IfErr, IsTrue, OnOk};
ghost use Rattle.std.specs.Io.KnownBytes.{Appends};
ghost use Rattle.lpt_text.specs.Streams.{AppendsPart, WriteEnds};
ghost use Rattle.lpt_spacecraft.specs.Changes.{any_changes};
ghost use Rattle.lpt_spacecraft.specs.Files.{saved_by};
ghost use Rattle.lpt_spacecraft.specs.Keeping.{IsKeptAs};

use crate::{Spacecraft, Told};
use lpt_text::{Sink, StreamFault, write_out};

/// Where the state of a spacecraft and its memories are kept, each time in place of what was kept
/// before.
pub trait Keeper {
    // The octets that were kept last, if they are known.
    ghost kept: { Self → Option (List ℕ) };

    // What the files of memories have, each beside the memory's identifier.
    ghost saved: { Self → List (ℕ × Option (List ℕ)) };

    /// Keeps the spacecraft as it is, of which this is told since it was kept last, and each memory
    /// that this says was written in the files that are its own; answers whether it could. If
    /// state and memories are still as they were kept last it isn't called.
    fn keep(&mut self, craft: &Spacecraft, told: &[Told]) -> bool
        ensures kept { IsTrue result → IsKeptAs (kept self.new) craft.now }
        ensures saved { IsTrue result
            → saved self.new ≡ map (saved_by told.now craft.now.memories) (saved self.old) }

        // If it couldn't, what is kept is the spacecraft as it was kept last, or as it is.
        ensures whole { (kept self.new ≡ kept self.old) ⊎ IsKeptAs (kept self.new) craft.now };
}

/// The keeper of a spacecraft that need not outlast anything: it keeps nothing.
#[derive(Drop)]
pub struct Unkept;

impl Keeper for Unkept {
    ghost kept = { λ _. None };

    ghost saved = { λ _. [] };

    fn keep(&mut self, _craft: &Spacecraft, _told: &[Told]) -> bool {
        true
    }
}

// Keeps a spacecraft of which this is told, if that or a tick may have changed what is kept of
// it; answers whether it is kept as it is.
pub(crate) fn keep_changed<H: Keeper>(
    keeper: &mut H,
    craft: &Spacecraft,
    told: &[Told],
    ticked: bool,
) -> bool
    requires { (ticked || any_changes told.now) ≡ false
        → IsKeptAs (H.kept keeper.old) craft.now }
    ensures { IsTrue result → IsKeptAs (H.kept keeper.new) craft.now }
{
    if ticked || any_changes(told) {
        return keeper.keep(craft, told);
    }
    true
}

// Whether one of these changes what is kept of a spacecraft.
fn any_changes(told: &[Told]) -> bool
    ensures { result ≡ any_changes told.now }
{
    told.iter().any(|one| one.changes())
}

/// Where what a spacecraft made is passed on, and nothing else is written.
pub(crate) trait Outlet {
    // The octets that were written, if they are known.
    ghost contents: { Self → Option (List ℕ) };

    // Whether a write has failed or taken nothing.
    ghost failed: { Self → Bool };

    /// Writes what a spacecraft made before it came to this, as which it is kept.
    fn pass_on<H: Keeper>(
        &mut self,
        keeper: &H,
        craft: &Spacecraft,
        made: &[u8],
    ) -> Result<(), StreamFault>
        requires { IsKeptAs (H.kept keeper.now) craft.now }
        ensures ok { OnOk result (Appends (contents self.old) (contents self.new) made.now) }
        ensures fault { IfErr result (λ e. e ≡ StreamFault.Write) }
        ensures writer { WriteEnds result (failed self.old) (failed self.new) }
        ensures part { IfErr result (λ _.
            AppendsPart (contents self.old) (contents self.new) made.now) };
}

impl<K: Sink> Outlet for K {
    ghost contents = { λ out. K.contents out };

    ghost failed = { λ out. K.failed out };

    fn pass_on<H: Keeper>(
        &mut self,
        _keeper: &H,
        _craft: &Spacecraft,
        made: &[u8],
    ) -> Result<(), StreamFault> {
        write_out(self, made)
    }
}
