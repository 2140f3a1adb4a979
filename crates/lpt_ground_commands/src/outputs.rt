//! Files that a job uses; and dumps for whose files there is no place.

use lpt_command_line::{GroundWords, Job, SettingWords, SourceWords, SpacecraftWords};
use lpt_io::{Failure, Usage, UsedFile, add_craft_files, add_file, add_settings_file, check_place};
use std::alloc::{AllocError, Global};
use std::rt::Files;

/// The files that a job of these words uses, and those of its spacecraft if there is one; without
/// the files of a list.
///
/// Errors: `Memory`.
pub fn files_used<'a>(
    alloc: Global,
    settings: &SettingWords<'a>,
    words: &GroundWords<'a>,
    craft: Option<&SpacecraftWords<'a>>,
) -> Result<Vec<UsedFile<'a>>, Failure> {
    let mut files = Vec::new(alloc);
    add_settings_file(&mut files, settings)?;
    add_file(&mut files, "<LIST>", words.list, Usage::Read)?;
    add_areas(&mut files, words)?;
    add_file(&mut files, "--job <FILE>", words.kept, Usage::Locked)?;
    if let SourceWords::Next(path) = words.source {
        add_file(&mut files, "--passes <FILE>", Some(path), Usage::Locked)?;
    }
    add_file(&mut files, "--up <FIFO>", words.up, Usage::Put)?;
    if let Some(craft) = craft {
        add_craft_files(&mut files, craft)?;
    }
    Ok(files)
}

// Adds the files of areas: those of a dump are written. The only error is out of memory.
fn add_areas<'a>(files: &mut Vec<UsedFile<'a>>, words: &GroundWords<'a>) -> Result<(), AllocError> {
    let (first, behind, usage) = match words.job {
        Job::Dump => (
            "--to <FILE>",
            "--area <ADDRESS> <LENGTH> <FILE>",
            Usage::Written,
        ),
        _ => ("<FILE>", "--area <ADDRESS> <FILE>", Usage::Read),
    };
    for (number, area) in words.areas.iter().enumerate() {
        let option = if number == 0 { first } else { behind };
        add_file(files, option, Some(area.file), usage)?;
    }
    Ok(())
}

/// Refuses dumps for whose files there is no place: they are written at the end only.
///
/// Errors: `Write`.
pub fn check_places(
    rt: &(impl Files + AllocGlobal),
    words: &GroundWords<'_>,
) -> Result<(), Failure> {
    if matches!(words.job, Job::Dump) {
        for area in &words.areas {
            check_place(rt, area.file)?;
        }
    }
    Ok(())
}
