//! A file compared with check reports, from files or standard input to standard output.

ghost use Rattle.lpt_events.specs.Configs.{IsConfig};

use crate::layouts::own_or_given;
use lpt_command_line::CompareWords;
use lpt_compare::{Checked, Checks, Image, Others, read_checks};
use lpt_events::Config;
use lpt_io::{
    Failure, Machine, Output, Status, Voice, file_at, name_of, opened_packets, output, read_ended,
    status_of, tell_no_packets, tell_text, written_ended,
};
use lpt_text::{StreamFault, write_out};
use std::alloc::{AllocError, Global};

/// Writes a line for each area of the check reports: whether its checksum is that of the file's
/// octets there. What is no packet, check reports that can't be read, and parts of messages are
/// told, and the status says so. Check reports and parts of another APID are just told. The reports
/// are read by the layouts of a file if one is given, otherwise by the profile.
///
/// Errors: `Read` if a file can't be opened or read, or a capture is wrong; `Config` if the
/// layouts' file is too long; `Write`, `Memory`.
pub fn compare<R: Machine>(
    rt: &R,
    voice: Voice,
    config: &Config,
    words: &CompareWords<'_>,
) -> Result<Status, Failure>
    requires { IsConfig config.now }
{
    let Some(layouts) = own_or_given(rt, words.layout)? else {
        return Ok(Status::Unreadable);
    };
    let mut reports = opened_packets(rt, voice, &words.reports, None, None)?;
    let octets = file_at(rt, words.file)?;
    let layout = &layouts.telemetry.packets;
    let read = read_checks(rt.alloc(), layout, config.apid, words.memory, &mut reports);
    let checks = read_ended(rt, voice, &reports, &words.reports, read);
    drop(reports);
    let checks = checks?;
    let status = tell_checks(rt, voice, words, octets.as_slice(), checks);
    drop(octets);
    status
}

// Writes the lines, and gives whether all is as it should be.
fn tell_checks(
    rt: &(impl Print + Eprint + AllocGlobal),
    voice: Voice,
    words: &CompareWords<'_>,
    octets: &[u8],
    checks: Checks,
) -> Result<Status, Failure> {
    let Checks {
        areas,
        damaged,
        stray,
        unread,
        parts,
        others,
    } = checks;
    let image = Image {
        from: words.address,
        octets,
    };
    let mut out = output(rt)?;
    let written = write_lines(rt.alloc(), words.memory, &image, &areas, &mut out);
    let agree = written_ended(rt, out, written)?;
    let open = image.first_open(areas);
    let sound = damaged == 0 && stray == 0 && unread == 0 && parts == 0;
    let is_done = agree && sound && open.is_none() && !octets.is_empty();
    tell_no_packets(rt, "", damaged, stray);
    tell_passed(rt, unread, parts);
    if voice.tells() || !is_done {
        tell_others(rt, others);
    }
    tell_lacking(rt, words, octets, open);
    Ok(status_of(!is_done))
}

// Tells how many check reports and parts are of another APID, and of which the first is.
fn tell_others(rt: &(impl Eprint + AllocGlobal), others: Others) {
    let Others { count, first } = others;
    if let Some(first) = first {
        let text = format!(in rt.alloc();
            "check reports or parts of another APID: {count}, the first of {first}"
        );
        tell_text(rt, text);
    }
}

// Tells how many check reports can't be read, and how many parts of messages there are.
fn tell_passed(rt: &(impl Eprint + AllocGlobal), unread: u64, parts: u64) {
    if unread != 0 {
        let reports = if unread == 1 { "report" } else { "reports" };
        let text = format!(in rt.alloc(); "{unread} check {reports} can't be read");
        tell_text(rt, text);
    }
    if parts != 0 {
        let word = if parts == 1 { "part" } else { "parts" };
        let text = format!(in rt.alloc();
            "{parts} {word} of messages: lpt join down --each DIR joins what may be check reports"
        );
        tell_text(rt, text);
    }
}

// Tells what is lacking of a comparison, if no report agrees at this address: that, or that the
// file has no octets to compare.
fn tell_lacking(
    rt: &(impl Eprint + AllocGlobal),
    words: &CompareWords<'_>,
    octets: &[u8],
    open: Option<u64>,
) {
    let memory = words.memory;
    if octets.is_empty() {
        let name = name_of(words.file);
        tell_text(
            rt,
            format!(in rt.alloc(); "{name}: there are no octets to compare"),
        );
    } else if let Some(address) = open {
        let text = format!(in rt.alloc();
            "memory {memory}: no agreeing check report came for address {address}"
        );
        tell_text(rt, text);
    }
}

// Writes a line for each area, and gives whether all of them agree.
fn write_lines<R: Print>(
    alloc: Global,
    memory: u8,
    image: &Image<'_>,
    checks: &[Checked],
    out: &mut Output<'_, R>,
) -> Result<bool, StreamFault> {
    let mut agree = true;
    for check in checks {
        let found = image.checksum(check);
        agree = agree && found == Some(check.checksum);
        let line = line_of(alloc, memory, check, found)?;
        write_out(out, line.as_bytes())?;
    }
    Ok(agree)
}

// The line of an area, if the file's octets have this checksum there. The only error is out of
// memory.
fn line_of(
    alloc: Global,
    memory: u8,
    check: &Checked,
    found: Option<u16>,
) -> Result<String, AllocError> {
    let Checked {
        address,
        len,
        checksum,
    } = *check;
    let mut line = format!(in alloc;
        "memory {memory} address {address} length {len} checksum {checksum:04x}"
    )?;
    match found {
        None => line.push_str(" outside\n")?,
        Some(found) if found == checksum => line.push_str(" same\n")?,
        Some(found) => line.write(format_args!(" differs from {found:04x}\n"))?,
    }
    Ok(line)
}
