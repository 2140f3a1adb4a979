//! Lines that only show what is in a world: shown in their place, or kept for later.

ghost use Rattle.std.specs.Prelude.{◌≡◌, ◌++◌, [], Bool, IfOk};
ghost use Rattle.lpt_script.specs.Scripts.{is_later, kept_of, now_done, shown_later};

use lpt_script_words::{Command, Show};
use std::alloc::{AllocError, Global};

/// Whether what lines show is shown in their place, or kept for later.
#[derive(Drop)]
pub enum Shows {
    /// In their place.
    Now,
    /// Later: what was kept, in order.
    Later(Vec<Show>),
}

impl Shows {
    /// What is for later, of which nothing was kept yet.
    pub fn later(alloc: Global) -> Self
        ensures later { is_later result ≡ Bool.true }
        ensures none { kept_of result ≡ [] }
    {
        Shows::Later(Vec::new(alloc))
    }

    /// Keeps what a command shows that is for later, behind what was kept before, and gives back one that
    /// is to be done now.
    pub fn keep(&mut self, command: Command) -> Result<Option<Command>, AllocError>
        ensures same { is_later self.new ≡ is_later self.old }
        ensures now { IfOk result (λ now. now ≡ now_done (is_later self.old) command) }
        ensures kept { IfOk result (λ _. kept_of self.new ≡ kept_of self.old ++ shown_later (is_later self.old) command) }
    {
        match (self, command) {
            (Shows::Later(kept), Command::Show(show)) => {
                kept.push(show)?;
                Ok(None)
            }
            (_, command) => Ok(Some(command)),
        }
    }

    /// What was kept, in order.
    pub fn into_kept(self, alloc: Global) -> Vec<Show>
        ensures { result.items ≡ kept_of self }
    {
        match self {
            Shows::Now => Vec::new(alloc),
            Shows::Later(kept) => kept,
        }
    }
}
