//! The octets of dump reports, from a file or standard input to standard output.

ghost use Rattle.lpt_events.specs.Configs.{IsConfig};

use crate::extract_joins::extract_parts;
use crate::extract_notices::Telling;
use lpt_carried::{Reading, Skips, Wanted as Parts};
use lpt_command_line::ExtractWords;
use lpt_events::Config;
use lpt_extract::{Clashes, ExtractEnd, Extracted, ImagePlace, Others, Wanted, extract_stream};
use lpt_io::{
    Failure, Fault, Machine, Status, Voice, carried_ended, opened_packets, output, own_or_read,
    reading_of, tell_no_packets, tell_place, tell_text,
};
use lpt_packet::Direction;
use std::alloc::{AllocError, Global};
use std::collections::BTreeMap;

/// Writes the octets that dump reports hold: by the layouts of a file if one is given, otherwise by
/// the profile.
///
/// Errors: `Read` if the packets can't be opened or read, or their capture is wrong; `Config`
/// if the layouts' file is too long; `Write`; `Memory`, also for an image that would be too
/// large.
pub fn extract<R: Machine>(
    rt: &R,
    voice: Voice,
    config: &Config,
    words: &ExtractWords<'_>,
) -> Result<Status, Failure>
    requires { IsConfig config.now }
{
    let Ok(at) = place(words) else {
        tell_place(rt, "--from, --fill and --whole need --at");
        return Ok(Status::Unreadable);
    };
    let voice = voice.beside_output();
    let Some(layouts) = own_or_read(rt, config.part_size, words.layout)? else {
        return Ok(Status::Unreadable);
    };
    let reading = reading_of(&layouts, config.apid, Direction::Down);
    let wanted = Wanted {
        apid: config.apid,
        layout: reading.layout,
        at,
    };
    let parts = words.join.then_some((u32::from(config.source), reading));
    let mut source = opened_packets(rt, voice, &words.files, None, None)?;
    let mut out = output(rt)?;
    let (extracted, lost) = match &parts {
        Some((user, reading)) => {
            extract_parts(rt, voice, *user, reading, &wanted, &mut source, &mut out)
        }
        None => {
            let mut telling = Telling { rt, voice };
            let alloc = rt.alloc();
            let extracted = extract_stream(alloc, &wanted, &mut source, &mut out, &mut telling);
            (extracted, false)
        }
    };
    let extracted = carried_ended(rt, voice, &source, &words.files, out, extracted);
    drop(source);
    let extracted = extracted?;
    let joined = parts.map(|(_, reading)| reading);
    let status = extract_status(rt, voice.tells() || lost, &wanted, joined, &extracted);
    drop(extracted);
    match status {
        Ok(Status::Done) if lost => Ok(Status::Refused),
        status => status,
    }
}

// The image that is asked for, if one is.
//
// Errors: what is said of an image, if none is asked for.
fn place(words: &ExtractWords<'_>) -> Result<Option<ImagePlace>, ()> {
    match words.at {
        Some(memory) => Ok(Some(ImagePlace {
            memory,
            from: words.from.unwrap_or(0),
            fill: words.fill.unwrap_or(0),
            whole: words.whole,
        })),
        None if words.from.is_some() || words.fill.is_some() || words.whole => Err(()),
        None => Ok(None),
    }
}

// The status of an extraction that ended so, after it was told why nothing was written, what is
// missing, which reports and parts weren't read, by how parts were read if they were joined, and
// what was no packet; and, if it tells of all or not all is well, what is of another APID.
fn extract_status(
    rt: &(impl Eprint + AllocGlobal),
    tells: bool,
    wanted: &Wanted,
    joined: Option<Reading>,
    extracted: &Extracted,
) -> Result<Status, Failure> {
    match extracted.end {
        ExtractEnd::Written => tell_image(rt, wanted, extracted),
        ExtractEnd::NotWhole => {
            tell_place(rt, "nothing was written: the image isn't whole");
            tell_image(rt, wanted, extracted);
        }
        ExtractEnd::Nothing => {
            tell_nothing(rt, wanted);
            tell_others(
                rt,
                extracted.tally.memories,
                "dump reports of another memory",
            );
        }
        ExtractEnd::TooLarge(_) => {}
    }
    if tells || !extracted.is_clean() {
        let what = "dump reports or parts of another APID";
        tell_others(rt, extracted.tally.apids, what);
    }
    tell_parts(rt, joined, extracted.tally.parts);
    tell_no_packets(rt, "", extracted.tally.damaged, extracted.tally.stray);
    match extracted.end {
        ExtractEnd::TooLarge(size) => {
            let place = format!(in rt.alloc();
                "an image of {size} octets isn't written: it has 268435456 at most, see --from"
            );
            Err(Failure::at(Fault::Memory, place))
        }
        _ => Ok(if extracted.is_clean() && !is_doubtful(wanted, extracted) {
            Status::Done
        } else {
            Status::Refused
        }),
    }
}

// Whether an image is wanted whole for which areas contradict one another.
fn is_doubtful(wanted: &Wanted, extracted: &Extracted) -> bool {
    matches!(wanted.at, Some(ImagePlace { whole: true, .. })) && !extracted.clashes.is_empty()
}

// Tells of which addresses of the image no octets came, or different ones.
fn tell_image(rt: &(impl Eprint + AllocGlobal), wanted: &Wanted, extracted: &Extracted) {
    if let Some(ImagePlace { memory, .. }) = wanted.at {
        tell_gaps(rt, memory, &extracted.gaps);
        tell_clashes(rt, memory, &extracted.clashes);
    }
}

// Tells of which addresses different octets came.
fn tell_clashes(rt: &(impl Eprint + AllocGlobal), memory: u8, clashes: &Clashes) {
    let mut from = 0;
    for (first, last) in clashes.alike() {
        tell_clash(rt, memory, from, *first);
        from = last.saturating_add(1);
    }
    tell_clash(rt, memory, from, clashes.end());
}

// The same of the addresses from one on and up to, not including, another.
fn tell_clash(rt: &(impl Eprint + AllocGlobal), memory: u8, first: u64, end: u64) {
    if first < end {
        tell_text(rt, clash_text(rt.alloc(), memory, first, end - 1));
    }
}

// That different octets came for the addresses from the first to the last. The only error is out of
// memory.
fn clash_text(alloc: Global, memory: u8, first: u64, last: u64) -> Result<String, AllocError> {
    if first == last {
        format!(in alloc; "memory {memory}: address {first} came with different octets")
    } else {
        format!(in alloc; "memory {memory}: addresses {first}-{last} came with different octets")
    }
}

// Tells of which addresses of the image no octets came.
fn tell_gaps(rt: &(impl Eprint + AllocGlobal), memory: u8, gaps: &BTreeMap<u64, u64>) {
    for (first, last) in gaps {
        let text = if first == last {
            format!(in rt.alloc(); "memory {memory}: no octets came for address {first}")
        } else {
            format!(in rt.alloc(); "memory {memory}: no octets came for addresses {first}-{last}")
        };
        tell_text(rt, text);
    }
}

// Tells how many these were, and of which memory or APID the first was.
fn tell_others(rt: &(impl Eprint + AllocGlobal), others: Others, what: &str) {
    let Others { count, first } = others;
    if let Some(first) = first {
        let text = format!(in rt.alloc(); "{what}: {count}, the first of {first}");
        tell_text(rt, text);
    }
}

// Tells how many parts of messages weren't read, and where the first is: none was joined, or those
// were that are read so.
fn tell_parts(rt: &(impl Eprint + AllocGlobal), joined: Option<Reading>, parts: Others) {
    let Others { count, first } = parts;
    let Some(place) = first else {
        return;
    };
    match joined {
        Some(reading) => tell_unread(rt, reading, count, place),
        None if count == 1 => tell_text(
            rt,
            format!(in rt.alloc();
                "1 part of a message, at octet {place}: --join joins what may be a dump report"
            ),
        ),
        None => tell_text(
            rt,
            format!(in rt.alloc();
                "{count} parts of messages, the first at octet {place}: \
                 --join joins what may be dump reports"
            ),
        ),
    }
}

// Tells how many parts weren't read, in the words of `join`.
fn tell_unread(rt: &(impl Eprint + AllocGlobal), reading: Reading, count: u64, place: u64) {
    let mut skips = Skips::new();
    skips.unread = count;
    skips.unread_at = Some(place);
    let parts = Parts {
        reading,
        name: None,
    };
    if let Ok(lines) = skips.lines(rt.alloc(), &parts, 0, 0) {
        for line in lines {
            tell_place(rt, line.as_str());
        }
    }
}

// Tells why nothing was written.
fn tell_nothing(rt: &(impl Eprint + AllocGlobal), wanted: &Wanted) {
    let Some(place) = wanted.at else {
        return tell_place(rt, "no whole dump report gave an area");
    };
    let (memory, from) = (place.memory, place.from);
    let text = format!(in rt.alloc();
        "memory {memory}: no whole report gave octets for address {from} or later ones"
    );
    tell_text(rt, text);
}
