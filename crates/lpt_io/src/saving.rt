//! Files that are written whole, or not at all.

use crate::end::Failure;
use crate::ended::done_at;
use crate::fault::Fault;
use crate::{Disk, part_of};
use std::fs::{File, Metadata, OpenFile, OpenOptions};
use std::io::{ErrorKind, Write};
use std::os::unix::fs::{MetadataExt, OpenOptionsExt, fchown};
use std::os::unix::io::AsFd;
use std::rt::Files;
use std::{fs, io};

/// How many symbolic links a path leads through at most, as on the system.
const LINKS: usize = 40;

/// Writes octets under another name, and gives them this one once all are there.
///
/// Errors: `Write`; the file at this path is as it was then. `Memory`.
pub fn write_beside<R: Files + AllocGlobal>(
    rt: &R,
    path: &str,
    octets: &[u8],
) -> Result<(), Failure> {
    let part = part_of(rt.alloc(), path)?;
    crate::write_whole(&mut PlainDisk { rt }, part.as_str(), path, octets)
}

/// Does the same, and forces to the disk first the octets, and then the name. If this path is a
/// symbolic link, it is the file behind it that is written. The file's mode stays, and if the
/// system allows it the owner.
///
/// Errors: `Write`; the file at this path is as it was then, or has these octets if its name
/// alone couldn't be forced. `Memory`.
pub fn write_for_good<R: Files + AllocGlobal>(
    rt: &R,
    path: &str,
    octets: &[u8],
) -> Result<(), Failure>
where
    R::File: AsFd,
{
    let path = done_at(rt, Fault::Write, path, file_behind(rt, path))?;
    let part = part_of(rt.alloc(), path.as_str())?;
    crate::saving_disk::write_for_good(&mut ForcedDisk { rt }, part.as_str(), path.as_str(), octets)
}

/// Refuses a path at which `write_for_good` would find no place for a file: something else is
/// there, or its folder isn't. What else may fail shows only when it writes.
///
/// Errors: `Write`.
pub fn check_place(rt: &(impl Files + AllocGlobal), path: &str) -> Result<(), Failure> {
    done_at(rt, Fault::Write, path, find_place(rt, path))
}

// Finds a file at a path, or nothing in a folder that is there.
fn find_place(rt: &(impl Files + AllocGlobal), path: &str) -> io::Result<()> {
    if known_at(rt, path)?.is_some() {
        return Ok(());
    }
    let path = file_behind(rt, path)?;
    if path.as_str().is_empty() {
        return Err(io::Error::from(ErrorKind::NotFound));
    }
    let folder = folder_of(path.as_str());
    // The folder in which the program runs is there.
    if folder == "." {
        return Ok(());
    }
    if fs::metadata(rt, folder)?.is_dir() {
        Ok(())
    } else {
        Err(io::Error::from(ErrorKind::NotADirectory))
    }
}

// The machine's files, of which none is forced to the disk.
#[derive(Drop)]
struct PlainDisk<'a, R> {
    rt: &'a R,
}

impl<R: Files + AllocGlobal> Disk for PlainDisk<'_, R> {
    ghost use Rattle.std.specs.Prelude.{None};

    type Fault = Failure;

    // What is there isn't known to the prover.
    ghost found = { λ _. None };

    fn put(&mut self, path: &str, like: &str, octets: &[u8]) -> Result<(), Failure> {
        done_at(
            self.rt,
            Fault::Write,
            like,
            fs::write(self.rt, path, octets),
        )
    }

    fn rename(&mut self, from: &str, to: &str) -> Result<(), Failure> {
        done_at(self.rt, Fault::Write, to, fs::rename(self.rt, from, to))
    }

    fn settle(&mut self, _path: &str) -> Result<(), Failure> {
        Ok(())
    }

    fn remove(&mut self, path: &str) {
        let _ = fs::remove_file(self.rt, path);
    }
}

// The machine's files, of which each is forced to the disk, and has the mode and the owner of the
// one that it replaces.
#[derive(Drop)]
struct ForcedDisk<'a, R> {
    rt: &'a R,
}

impl<R: Files + AllocGlobal> Disk for ForcedDisk<'_, R>
where
    R::File: AsFd,
{
    ghost use Rattle.std.specs.Prelude.{None};

    type Fault = Failure;

    // What is there isn't known to the prover.
    ghost found = { λ _. None };

    fn put(&mut self, path: &str, like: &str, octets: &[u8]) -> Result<(), Failure> {
        let old = done_at(self.rt, Fault::Write, like, known_at(self.rt, like))?;
        let part = part_opened(self.rt, path, old.is_some());
        let mut file = done_at(self.rt, Fault::Write, path, part)?;
        let put = put_all(&mut file, &old, octets);
        drop(file);
        done_at(self.rt, Fault::Write, like, put)
    }

    fn rename(&mut self, from: &str, to: &str) -> Result<(), Failure> {
        done_at(self.rt, Fault::Write, to, fs::rename(self.rt, from, to))
    }

    fn settle(&mut self, path: &str) -> Result<(), Failure> {
        done_at(self.rt, Fault::Write, path, folder_forced(self.rt, path))
    }

    fn remove(&mut self, path: &str) {
        let _ = fs::remove_file(self.rt, path);
    }
}

/// The path of the file to which this one leads, through all symbolic links at its end, whether
/// there is such a file or not.
///
/// Errors: a link can't be read, there are too many of them, or memory ran out.
pub fn file_behind(rt: &(impl Files + AllocGlobal), path: &str) -> io::Result<String> {
    let mut at = format!(in rt.alloc(); "{path}")?;
    for _ in 0..LINKS {
        let Some(target) = link_at(rt, at.as_str())? else {
            return Ok(at);
        };
        at = if target.as_str().starts_with('/') {
            target
        } else {
            let folder = folder_of(at.as_str());
            format!(in rt.alloc(); "{folder}/{target}")?
        };
    }
    Err(io::Error::from(ErrorKind::FilesystemLoop))
}

// Where the symbolic link at a path leads, if there is one.
fn link_at(rt: &(impl Files + AllocGlobal), path: &str) -> io::Result<Option<String>> {
    match fs::read_link(rt, path) {
        Ok(target) => Ok(Some(target.into_string())),
        Err(error) => match error.kind() {
            ErrorKind::InvalidInput | ErrorKind::NotFound => Ok(None),
            _ => Err(error),
        },
    }
}

// What the system knows of the file at a path, if there is one. It is an error if it is
// anything else than a file.
fn known_at(rt: &impl Files, path: &str) -> io::Result<Option<Metadata>> {
    match fs::metadata(rt, path) {
        Ok(known) if known.is_file() => Ok(Some(known)),
        Ok(_) => Err(io::Error::new(ErrorKind::InvalidInput, "it is no file")),
        Err(error) => match error.kind() {
            ErrorKind::NotFound => Ok(None),
            _ => Err(error),
        },
    }
}

// A new file under the other name, in place of one that a process which died has left. If it is
// to have the mode of another, nobody else can read it yet.
fn part_opened<R: Files>(rt: &R, part: &str, is_private: bool) -> io::Result<R::File> {
    let _ = fs::remove_file(rt, part);
    let mut options = OpenOptions::new();
    options.write(true).create_new(true);
    if is_private {
        options.mode(0o600);
    }
    options.open(rt, part)
}

// Waits until the name at a path is on the disk.
fn folder_forced<R: Files>(rt: &R, path: &str) -> io::Result<()> {
    let folder = File::open(rt, folder_of(path))?;
    let put = folder.sync_all();
    drop(folder);
    put
}

// Writes all octets, gives the file what the old one had besides, and waits until all is on the
// disk.
fn put_all<F: Write + OpenFile + AsFd>(
    file: &mut F,
    old: &Option<Metadata>,
    octets: &[u8],
) -> io::Result<()> {
    file.write_all(octets)?;
    if let Some(old) = old {
        make_alike(file, old);
    }
    file.sync_all()
}

// Gives a file the owner, the group and the mode of another, as far as the system allows it.
fn make_alike<F: OpenFile + AsFd>(file: &F, old: &Metadata) {
    let group = Some(old.gid());
    if fchown(file, Some(old.uid()), group).is_err() {
        let _ = fchown(file, None, group);
    }
    let _ = file.set_permissions(old.permissions());
}

// The folder in which a file stands.
fn folder_of(path: &str) -> &str {
    split_path(path).0
}

// The folder in which a file stands, and its name there.
pub(crate) fn split_path(path: &str) -> (&str, &str) {
    match path.rsplit_once('/') {
        None => (".", path),
        Some(("", name)) => ("/", name),
        Some(both) => both,
    }
}
