//! What was heard of memories, compared with what they should have, or written.

use crate::errands::Errand;
use crate::ground_told::Teller;
use lpt_command_line::GroundWords;
use lpt_ground::dumped_octets;
use lpt_ground_run::{Asked, ErrandKind, Places};
use lpt_io::{Failure, LastingFiles, Status, first_failure};

/// Writes the files of what was dumped, also if another couldn't be written.
///
/// Errors: that of the first one that couldn't be written, `Write` or `Memory`.
pub fn write_dumps(
    rt: &(impl LastingFiles + AllocGlobal),
    words: &GroundWords<'_>,
    errand: &Errand,
) -> Result<Status, Failure> {
    let mut rest = errand.first.requests_asked();
    let mut written = Ok(());
    for (places, area) in errand.places.iter().zip(&words.areas) {
        let (asked, behind) = places.split(rest);
        if let Err(failure) = write_dump(rt, area.file, asked) {
            written = first_failure(written, Some(failure));
        }
        rest = behind;
    }
    written?;
    Ok(Status::Done)
}

// Writes the octets that these requests got to the file at this path.
//
// Errors: `Write`; `Memory`.
fn write_dump(
    rt: &(impl LastingFiles + AllocGlobal),
    path: &str,
    asked: &[Asked],
) -> Result<(), Failure> {
    let octets = dumped_octets(rt.alloc(), asked)?;
    rt.write_for_good(path, &octets)
}

/// Compares what these requests, which are of these octets, got with the content, and answers
/// whether they are the same.
///
/// Errors: `Memory`.
pub fn compare_all(
    rt: &(impl Eprint + AllocGlobal),
    teller: Teller,
    errand: &Errand,
    all: &[Places],
    asked: &[Asked],
) -> Result<bool, Failure> {
    let mut alike = true;
    let mut rest = asked;
    for places in all {
        let (asked, behind) = places.split(rest);
        let content = errand.content(places.area);
        alike = compare(rt, teller, places, asked, content)? && alike;
        rest = behind;
    }
    Ok(alike)
}

// Compares what these requests got of an area with its content.
fn compare(
    rt: &(impl Eprint + AllocGlobal),
    teller: Teller,
    places: &Places,
    asked: &[Asked],
    content: &[u8],
) -> Result<bool, Failure> {
    if matches!(places.kind, ErrandKind::Check) {
        return Ok(teller.compare_checks(rt, places, asked, content));
    }
    let octets = dumped_octets(rt.alloc(), asked)?;
    Ok(teller.compare_octets(rt, places, content, &octets))
}
