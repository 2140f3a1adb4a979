//! Files that are replaced as a whole, and a spacecraft that is kept in such files.

ghost use Rattle.std.specs.Prelude.{◌≡◌, ◌⊎◌, ℕ, List, Option, OnErr, OnOk, is_some, map, option_map};
ghost use Rattle.std.specs.List.{list_any};
ghost use Rattle.std.specs.Option.{option_and_then};
ghost use Rattle.lpt_memory.specs.Memories.{content_of};
ghost use Rattle.lpt_spacecraft.specs.Files.{contents_of, replaced_by, saved_by, saved_in, writes_to, written_with};
ghost use Rattle.lpt_spacecraft.specs.Keeping.{IsKeptAs};

use crate::{Keeper, Spacecraft, Told};

/// A file that is replaced as a whole, or not at all.
pub trait WholeFile: Drop {
    /// Why it couldn't be replaced.
    type Fault: Drop;

    // The octets that it has, if they are known.
    ghost content: { Self → Option (List ℕ) };

    /// Replaces all that it has by these octets.
    ///
    /// Errors: it couldn't be replaced. It has what it had then, or these octets.
    fn replace(&mut self, octets: &[u8]) -> Result<(), Self::Fault>
        ensures ok { OnOk result (content self.new ≡ replaced_by octets.now (content self.old)) }
        ensures err { OnErr result ((content self.new ≡ content self.old)
            ⊎ (content self.new ≡ replaced_by octets.now (content self.old))) };
}

/// Why a spacecraft couldn't be kept in files.
#[derive(Drop)]
pub enum KeepFault<E> {
    /// There was no memory for what is kept of it.
    Memory,
    /// A file couldn't be replaced.
    File(E),
}

/// The files in which a spacecraft is kept: one with its state and all its memories, and those of
/// the memories that are saved.
#[derive(Drop)]
pub struct KeptFiles<F: WholeFile> {
    // The file of the state, if it is kept.
    state: Option<F>,
    // The files of memories that are saved, each beside the memory's identifier.
    saved: Vec<(u8, F)>,
    // Why it couldn't be kept, if it couldn't.
    failure: Option<KeepFault<F::Fault>>,
}

impl<F: WholeFile> KeptFiles<F> {
    /// These files: that of the state, if it is kept, and those of memories that are saved, each
    /// beside the memory's identifier.
    pub fn new(state: Option<F>, saved: Vec<(u8, F)>) -> Self
        ensures state { result.state ≡ state }
        ensures saved { result.saved ≡ saved }
    {
        KeptFiles {
            state,
            saved,
            failure: None,
        }
    }

    /// The file of the state, if it is kept.
    pub fn state_file(&self) -> Option<&F>
        ensures { option_map (λ x. x.now) result ≡ self.now.state }
    {
        self.state.as_ref()
    }

    /// The files of memories that are saved, each beside the memory's identifier.
    pub fn saved_files(&self) -> &[(u8, F)]
        ensures { result.now ≡ self.now.saved.items }
    {
        &self.saved
    }

    /// Whether the spacecraft couldn't be kept.
    pub fn has_failed(&self) -> bool
        ensures { result ≡ is_some self.now.failure }
    {
        self.failure.is_some()
    }

    /// Why it couldn't be kept, if it couldn't.
    pub fn into_failure(self) -> Option<KeepFault<F::Fault>>
        ensures { result ≡ self.failure }
    {
        let KeptFiles { failure, .. } = self;
        failure
    }

    // Replaces the file of the state, if it is kept, and then those of the memories that were
    // written.
    fn write(&mut self, craft: &Spacecraft, told: &[Told]) -> Result<(), KeepFault<F::Fault>>
        ensures kept { OnOk result
            (IsKeptAs (option_and_then F.content self.new.state) craft.now) }
        ensures saved { OnOk result (contents_of F.content self.new.saved.items
            ≡ map (saved_by told.now craft.now.memories)
            (contents_of F.content self.old.saved.items)) }
        ensures whole { (option_and_then F.content self.new.state
            ≡ option_and_then F.content self.old.state)
            ⊎ IsKeptAs (option_and_then F.content self.new.state) craft.now }
    {
        if let Some(file) = &mut self.state {
            keep_in(file, craft)?;
        }
        save_written(&mut self.saved, craft, told)
    }
}

impl<F: WholeFile> Keeper for KeptFiles<F> {
    ghost kept = { λ k. option_and_then F.content k.state };

    ghost saved = { λ k. contents_of F.content k.saved.items };

    fn keep(&mut self, craft: &Spacecraft, told: &[Told]) -> bool {
        match self.write(craft, told) {
            Ok(()) => true,
            Err(fault) => {
                self.failure = Some(fault);
                false
            }
        }
    }
}

// Replaces a file by what is kept of a spacecraft.
fn keep_in<F: WholeFile>(file: &mut F, craft: &Spacecraft) -> Result<(), KeepFault<F::Fault>>
    ensures ok { OnOk result (IsKeptAs (F.content file.new) craft.now) }
    ensures whole { (F.content file.new ≡ F.content file.old)
        ⊎ IsKeptAs (F.content file.new) craft.now }
{
    let Ok(octets) = craft.octets_kept(craft.alloc) else {
        return Err(KeepFault::Memory);
    };
    match file.replace(&octets) {
        Ok(()) => Ok(()),
        Err(fault) => Err(KeepFault::File(fault)),
    }
}

/// Replaces a file by a memory of a spacecraft, if there is one of this identifier.
///
/// Errors: why the file couldn't be replaced.
pub fn save_one<F: WholeFile>(file: &mut F, craft: &Spacecraft, id: u8) -> Result<(), F::Fault>
    ensures ok { OnOk result (F.content file.new
        ≡ written_with (content_of id craft.now.memories) (F.content file.old)) }
{
    match craft.content(id) {
        None => Ok(()),
        Some(content) => file.replace(content),
    }
}

// Replaces each file by the memory of its identifier, if that was written.
fn save_written<F: WholeFile>(
    files: &mut [(u8, F)],
    craft: &Spacecraft,
    told: &[Told],
) -> Result<(), KeepFault<F::Fault>>
    ensures ok { OnOk result (contents_of F.content files.new
        ≡ map (saved_by told.now craft.now.memories) (contents_of F.content files.old)) }
{
    for (id, file) in files.iter_mut() {
        save_if_written(file, *id, craft, told)?;
    }
    Ok(())
}

// Replaces a file by the memory of this identifier, if that was written.
fn save_if_written<F: WholeFile>(
    file: &mut F,
    id: u8,
    craft: &Spacecraft,
    told: &[Told],
) -> Result<(), KeepFault<F::Fault>>
    ensures ok { OnOk result (F.content file.new
        ≡ saved_in told.now craft.now.memories id (F.content file.old)) }
{
    if !is_written(told, id) {
        return Ok(());
    }
    match save_one(file, craft, id) {
        Ok(()) => Ok(()),
        Err(fault) => Err(KeepFault::File(fault)),
    }
}

// Whether the memory of this identifier was written.
fn is_written(told: &[Told], id: u8) -> bool
    ensures { result ≡ list_any (writes_to id) told.now }
{
    told.iter().any(|one| one.writes_to(id))
}
