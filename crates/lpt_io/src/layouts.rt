//! A mission's layouts, and their file.

ghost use Rattle.std.specs.Prelude.{IfOk, IfSome};
ghost use Rattle.lpt_carried.specs.Layouts.{SizesFit};
ghost use Rattle.lpt_part.specs.Splitting.{IsPartSize};

use crate::configuration::{complaint, read_file, text_of};
use crate::end::{Failure, tell_text};
use lpt_carried::{Layouts, Reading};
use lpt_layout_file::{read_layouts, why_refused};
use lpt_packet::Direction;
use std::rt::Files;

/// The layouts of the file at this path; none if they are refused, after standard error was told
/// where and why.
///
/// Errors: `Read` if the file can't be opened or read; `Config` if it has more than 1,048,576
/// octets; `Memory`.
pub fn layouts_at(
    rt: &(impl Files + Eprint + AllocGlobal),
    path: &str,
) -> Result<Option<Layouts>, Failure>
    ensures { IfOk result (λ l. IfSome l SizesFit) }
{
    let octets = read_file(rt, path)?;
    let place = match text_of(rt.alloc(), path, &octets) {
        Ok(text) => match read_layouts(rt.alloc(), text) {
            Some(layouts) => return Ok(Some(layouts)),
            None => complaint(rt.alloc(), path, why_refused(rt.alloc(), text)),
        },
        Err(place) => place,
    };
    let _ = rt.eprintln("layout refused");
    tell_text(rt, place);
    Ok(None)
}

/// The layouts of the file at this path; or, if none is given, the profile's with parts of `p`
/// octets; none if the file's are refused, after standard error was told so.
///
/// Errors: as of `layouts_at`.
pub fn own_or_read(
    rt: &(impl Files + Eprint + AllocGlobal),
    p: u32,
    path: Option<&str>,
) -> Result<Option<Layouts>, Failure>
    requires { IsPartSize p }
    ensures { IfOk result (λ l. IfSome l SizesFit) }
{
    match path {
        Some(path) => layouts_at(rt, path),
        None => Ok(Some(Layouts::own_of(p))),
    }
}

/// How the parts of a direction are read.
pub fn reading_of(layouts: &Layouts, apid: u16, direction: Direction) -> Reading {
    let tailored = layouts.tailored_in(direction);
    let part_size = match tailored.part_size {
        Some(size) if 1 <= size && size <= 65_535 => Some(size),
        _ => None,
    };
    Reading {
        direction,
        apid,
        layout: tailored.packets,
        parts: tailored.parts,
        part_size,
    }
}
