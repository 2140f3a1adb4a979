//! The packets of a file or of standard input, each split as a message of its own.

ghost use Rattle.lpt_events.specs.Configs.{IsConfig};

use crate::splits::{Fill, name_in, reason, status_of, writing_of};
use lpt_carried::Tailored;
use lpt_command_line::{SplitEachWords, WideName, WordFault};
use lpt_events::Config;
use lpt_io::{
    Failure, Machine, Status, copied_ended, open_input, output, own_or_read, tell_place,
    word_refused,
};
use lpt_layout::Width;
use lpt_packet::Direction;
use lpt_split::{EachEnd, EachSplit, EachWanted, Pick, SplitEnd, greatest, split_each};
use std::alloc::{AllocError, Global};

/// Writes the packets of the parts of each message of a stream: by the layouts of a file if one is
/// given, otherwise by the profile.
///
/// Errors: `Read` if a file can't be opened or read; `Config` if the layouts' file is too
/// long; `Write`, `Memory`.
pub fn split_all<R: Machine>(
    rt: &R,
    config: &Config,
    words: &SplitEachWords<'_>,
) -> Result<Status, Failure>
    requires { IsConfig config.now }
{
    let Some(layouts) = own_or_read(rt, config.part_size, words.split.layout)? else {
        return Ok(Status::Unreadable);
    };
    let tailored = layouts.tailored_in(words.split.direction);
    let name = match names_in(config, words, tailored) {
        Ok(name) => name,
        Err(fault) => return Ok(word_refused(rt, rt.alloc(), &fault)),
    };
    let picks = picks_of(rt.alloc(), words)?;
    let fill = Fill::new(config);
    let wanted = EachWanted {
        writing: writing_of(config, tailored, &words.split, name, &fill),
        id: name.id,
        picks: &picks,
        first: words.split.first,
    };
    let mut source = open_input(rt, words.split.file)?;
    let mut out = output(rt)?;
    let split = split_each(rt.alloc(), &wanted, &mut source, &mut out);
    let split = copied_ended(rt, source.inner(), words.split.file, out, split);
    drop(source);
    Ok(tell_outcome(rt, &wanted, words, split?)?)
}

// The name of the first that the words give, if the layout has room for it and for those that are
// chosen, and these have its source.
//
// Errors: `Id`, `Pick`, `PickSource`.
fn names_in<'a>(
    config: &Config,
    words: &SplitEachWords<'a>,
    tailored: &Tailored,
) -> Result<WideName, WordFault<'a>> {
    let name = name_in(&words.split, tailored)?;
    for pick in &words.picks {
        pick.check(greatest(tailored.parts.id))?;
        match tailored.packets.user {
            Width::Absent => {}
            _ => pick.check_source(name.source.unwrap_or(u32::from(config.source)))?,
        }
    }
    Ok(name)
}

// The parts that are chosen. The only error is out of memory.
fn picks_of<'a>(alloc: Global, words: &SplitEachWords<'a>) -> Result<Vec<Pick<'a>>, AllocError> {
    let mut picks = Vec::new(alloc);
    for pick in &words.picks {
        picks.push(Pick {
            id: pick.id,
            parts: pick.parts.as_bytes(),
        })?;
    }
    Ok(picks)
}

// The status of a split that ended so, after it was told what wasn't split. The only error is out
// of memory.
fn tell_outcome(
    rt: &(impl Eprint + AllocGlobal),
    wanted: &EachWanted<'_>,
    words: &SplitEachWords<'_>,
    split: EachSplit,
) -> Result<Status, AllocError> {
    let alloc = rt.alloc();
    match split.end {
        EachEnd::End if split.next == u64::from(wanted.id) => {
            tell(
                rt,
                format!(in alloc; "the input has no packet"),
                Status::Refused,
            )
        }
        EachEnd::End => tell_unknown(rt, wanted.id, words, split.next),
        EachEnd::Cut(place) | EachEnd::Stray(place) => {
            tell(
                rt,
                format!(in alloc; "octet {place}: no packet begins here, so reading ended"),
                Status::Refused,
            )
        }
        EachEnd::NoMessage(place) => {
            let kind = kind_of(words.split.direction);
            let text = format!(in alloc; "octet {place}: this packet is damaged, or no {kind}");
            tell(rt, text, Status::Refused)
        }
        EachEnd::Unsplit(end) => tell_unsplit(rt, wanted, words, split.next, end),
        EachEnd::NoIdentifier(place) => {
            let most = greatest(wanted.writing.parts.id);
            let text = format!(in alloc; "octet {place}: no identifier is left after {most}");
            tell(rt, text, Status::Refused)
        }
    }
}

// Says why the message of this identifier isn't split, and gives the status of that. The only error
// is out of memory.
fn tell_unsplit(
    rt: &(impl Eprint + AllocGlobal),
    wanted: &EachWanted<'_>,
    words: &SplitEachWords<'_>,
    next: u64,
    end: SplitEnd,
) -> Result<Status, AllocError> {
    let alloc = rt.alloc();
    let parts = list_of(words, next);
    let text = match end {
        SplitEnd::NoSuchPart(last) => {
            format!(in alloc; "--parts {next}:{parts}: not a list of parts from 1 to {last}")
        }
        end => {
            let reason = reason(alloc, wanted.writing.part_size, parts, end)?;
            format!(in alloc; "the message of ID {next}: {reason}")
        }
    };
    tell(rt, text, status_of(end))
}

// What packets of a direction are.
fn kind_of(direction: Direction) -> &'static str {
    match direction {
        Direction::Up => "telecommand",
        Direction::Down => "telemetry",
    }
}

// Says that no packet has the identifier, for each chosen one outside `first` up to before `next`,
// and gives the status of that. The only error is out of memory.
fn tell_unknown(
    rt: &(impl Eprint + AllocGlobal),
    first: u32,
    words: &SplitEachWords<'_>,
    next: u64,
) -> Result<Status, AllocError> {
    let mut status = Status::Done;
    for pick in &words.picks {
        let id = pick.id;
        if id < first || u64::from(id) >= next {
            let parts = pick.parts;
            let text = format!(in rt.alloc();
                "--parts {id}:{parts}: no packet has this identifier"
            );
            status = tell(rt, text, Status::Unreadable)?;
        }
    }
    Ok(status)
}

// The list of the parts that are chosen of the message of this identifier.
fn list_of<'a>(words: &SplitEachWords<'a>, id: u64) -> &'a str {
    for pick in &words.picks {
        if u64::from(pick.id) == id {
            return pick.parts;
        }
    }
    "1-"
}

// Says this on standard error, if there was memory for it, and gives the status of that.
fn tell(
    rt: &impl Eprint,
    text: Result<String, AllocError>,
    status: Status,
) -> Result<Status, AllocError> {
    let text = text?;
    tell_place(rt, text.as_str());
    Ok(status)
}
