//! The files in which a spacecraft is kept.

ghost use Rattle.std.specs.Prelude.{◌≡◌, IfOk, None, option_map};

use lpt_command_line::SpacecraftWords;
use lpt_io::{Failure, Fault, LastingFiles, Status, tell_end};
use lpt_spacecraft::{KeepFault, KeptFiles, Spacecraft, WholeFile, save_one};

/// A file of the machine, which is written whole, or not at all, and forced to the disk.
#[derive(Drop)]
pub struct MachineFile<'a, R> {
    rt: &'a R,
    path: &'a str,
}

impl<R: LastingFiles> WholeFile for MachineFile<'_, R> {
    type Fault = Failure;

    // What it has isn't known to the prover.
    ghost content = { λ _. None };

    fn replace(&mut self, octets: &[u8]) -> Result<(), Failure> {
        self.rt.write_for_good(self.path, octets)
    }
}

/// The files that the words name, of which those of the memories are saved if that is asked for;
/// that of the state is at this path, if it is kept. The only error is out of memory.
pub fn kept_files<'a, R: LastingFiles + AllocGlobal>(
    rt: &'a R,
    words: &SpacecraftWords<'a>,
    state: Option<&'a str>,
) -> Result<KeptFiles<MachineFile<'a, R>>, Failure>
    // The file of the state is the one at this path.
    ensures its_path { IfOk result (λ files. option_map (λ file. file.path.now) files.state
        ≡ option_map (λ path. path.now) state.entry) }
{
    let mut saved = Vec::new(rt.alloc());
    if words.save {
        for (id, path) in &words.memories {
            let file = MachineFile { rt, path: *path };
            saved.push((*id, file))?;
        }
    }
    let state = match state {
        Some(path) => Some(MachineFile { rt, path }),
        None => None,
    };
    Ok(KeptFiles::new(state, saved))
}

/// Why a spacecraft couldn't be kept in these files, or that memory ran out.
pub fn keep_failure<R: LastingFiles>(files: KeptFiles<MachineFile<'_, R>>) -> Failure {
    match files.into_failure() {
        Some(KeepFault::File(failure)) => failure,
        _ => Failure::from(Fault::Memory),
    }
}

/// Writes each memory into its file at the end of a run, also if another couldn't be written. The
/// result is how the run ended, or the last failure to write a memory. It reports the failures
/// before that one. A failure with which the run itself ended isn't reported again.
///
/// Errors: that with which the run ended, if each other memory was written; otherwise that of the
/// last memory that couldn't be written.
pub fn save_all(
    rt: &(impl LastingFiles + Eprint),
    craft: &Spacecraft,
    words: &SpacecraftWords<'_>,
    ended: Result<Status, Failure>,
) -> Result<Status, Failure> {
    let mut last = None;
    for (id, path) in &words.memories {
        let mut file = MachineFile { rt, path: *path };
        match save_one(&mut file, craft, *id) {
            Err(failure) if !matches!(&ended, Err(other) if failure.reads_like(other)) => {
                if let Some(before) = last {
                    tell_end(rt, Err(before));
                }
                last = Some(failure);
            }
            _ => {}
        }
    }
    match last {
        None => ended,
        Some(failure) => {
            tell_end(rt, ended);
            Err(failure)
        }
    }
}
