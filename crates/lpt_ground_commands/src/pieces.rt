//! What a job is of, area by area.

use crate::patches::patches_at;
use lpt_command_line::{GroundWords, Job};
use lpt_io::{Failure, Machine, UsedFile, file_at};
use lpt_packet::Octets;

/// An area of a job.
#[derive(Drop)]
pub struct Piece {
    /// The memory's identifier.
    pub memory: u8,
    /// The address of the first octet.
    pub address: u32,
    /// How many octets are dumped; 0 of a load or a check.
    pub len: u32,
    /// Whether it is dumped once it is loaded, and compared.
    pub verify: bool,
    /// What is loaded or checked; nothing of a dump.
    pub octets: Octets,
    /// The path of its file, if that stands in a list.
    pub file: Option<String>,
}

/// The areas of the job that these words ask for, which uses these files besides those of a list.
/// None if the list that has them is refused, and that was told.
///
/// Errors: as of `patches_at`.
pub fn pieces_of(
    rt: &impl Machine,
    words: &GroundWords<'_>,
    files: Vec<UsedFile<'_>>,
) -> Result<Option<Vec<Piece>>, Failure> {
    if let Some(path) = words.list {
        return patches_at(rt, path, files);
    }
    let mut pieces = Vec::new(rt.alloc());
    for area in &words.areas {
        let octets = match words.job {
            Job::Dump => Octets::from_vec(Vec::new(rt.alloc())),
            _ => file_at(rt, area.file)?,
        };
        pieces.push(Piece {
            memory: area.memory,
            address: area.address,
            len: area.len,
            verify: false,
            octets,
            file: None,
        })?;
    }
    Ok(Some(pieces))
}
