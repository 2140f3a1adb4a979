//! Messages joined of packets, from files or standard input: one to standard output, or each into a
//! file of its own.

ghost use Rattle.lpt_events.specs.Configs.{IsConfig};

use crate::eaches::write_each;
use crate::splits::{name_by, user_of};
use lpt_carried::{Name, Reading, Skips, Wanted, name_text};
use lpt_command_line::{JoinWords, WordFault};
use lpt_events::Config;
use lpt_io::{
    Failure, Machine, Packets, Status, Voice, carried_ended, octets_word, opened_packets, output,
    own_or_read, reading_of, tell_place, word_refused,
};
use lpt_layout::Width;
use lpt_layout_join::{
    Gathering, JoinEnd, JoinReport, MisfitAs, PartNumbers, end_of, join_as, missing_list,
};
use std::alloc::{AllocError, Global};

/// What is joined.
#[derive(Clone, Copy)]
pub struct Joining<'a> {
    /// What standard error is told beside what is wrong.
    pub voice: Voice,
    /// The source that is configured.
    pub user: u32,
    /// How parts are read, and which are wanted.
    pub wanted: Wanted,
    /// The words that ask for it.
    pub words: &'a JoinWords<'a>,
}

/// Writes the message that packets carry, or each into a file of its own: by the layouts of a file
/// if one is given, otherwise by the profile.
///
/// Errors: `Read` if a file can't be opened or read, or a capture is wrong; `Config` if the
/// layouts' file is too long; `Write`, also if the folder can't be made, or there is a file of a
/// message; `Memory`.
pub fn join<R: Machine>(
    rt: &R,
    voice: Voice,
    config: &Config,
    words: &JoinWords<'_>,
) -> Result<Status, Failure>
    requires { IsConfig config.now }
{
    let Some(layouts) = own_or_read(rt, config.part_size, words.layout)? else {
        return Ok(Status::Unreadable);
    };
    let user = u32::from(config.source);
    let reading = reading_of(&layouts, config.apid, words.direction);
    let name = match name_in(words, user, &reading) {
        Ok(name) => name,
        Err(fault) => return Ok(word_refused(rt, rt.alloc(), &fault)),
    };
    let joining = Joining {
        voice,
        user,
        wanted: Wanted { reading, name },
        words,
    };
    let span = joining.words.span;
    let mut source = opened_packets(rt, voice, &words.files, span.from, span.to)?;
    let status = match words.each {
        Some(path) => write_each(rt, joining, path, &mut source),
        None => write_one(rt, &joining, &mut source),
    };
    drop(source);
    status
}

// The name that the words give, if one is asked for and the layout has room for it, and this
// source is configured.
//
// Errors: `Id`.
fn name_in<'a>(
    words: &JoinWords<'a>,
    source: u32,
    reading: &Reading,
) -> Result<Option<Name>, WordFault<'a>> {
    let Some(word) = words.name else {
        return Ok(None);
    };
    let width = reading.layout.user;
    let given = name_by("--id <ID>", word, width, reading.parts.id)?;
    Ok(Some(Name {
        user: user_of(given, source, width),
        id: given.id,
    }))
}

// Writes the message that packets carry which were opened.
fn write_one<R: Machine>(
    rt: &R,
    joining: &Joining<'_>,
    source: &mut Packets<R>,
) -> Result<Status, Failure> {
    let mut out = output(rt)?;
    let words = joining.words;
    let joined = join_as(rt.alloc(), &joining.wanted, words.any, source, &mut out);
    let report = carried_ended(rt, joining.voice, source, &words.files, out, joined)?;
    let status = tell_outcome(rt, joining, &report);
    drop(report);
    Ok(status?)
}

// The status of a join that ended so, after standard error was told what isn't whole, or isn't all,
// and, if nothing was written or what was passed over may hold messages, what that was. The only
// error is out of memory.
fn tell_outcome(
    rt: &(impl Eprint + AllocGlobal),
    joining: &Joining<'_>,
    report: &JoinReport,
) -> Result<Status, AllocError> {
    let wanted = &joining.wanted;
    let status = match (report.end, wanted.name) {
        (Some(end), Some(name)) => {
            let gathering = report.gatherings.kept.get(&name);
            tell_end(rt, joining, name, end, gathering)?
        }
        (Some(end), None) => match report.gatherings.kept.first_key_value() {
            Some((name, gathering)) => tell_end(rt, joining, *name, end, Some(gathering))?,
            None => Status::Refused,
        },
        (None, _) => {
            tell_each(rt, joining, report)?;
            Status::Refused
        }
    };
    let loses = report.skips.loses(wanted);
    if !loses && matches!(report.end, Some(JoinEnd::Written(_))) {
        return Ok(status);
    }
    tell_skips(
        rt,
        joining.user,
        wanted,
        joining.words.span.from,
        &report.skips,
    )?;
    Ok(if loses { Status::Refused } else { status })
}

/// Says on standard error what was passed over, and why, if these parts were wanted, this source is
/// configured and packets are taken from this octet on. The only error is out of memory.
pub fn tell_skips(
    rt: &(impl Eprint + AllocGlobal),
    source: u32,
    wanted: &Wanted,
    from: Option<u64>,
    skips: &Skips,
) -> Result<(), AllocError> {
    let source = source_of(source, &wanted.reading);
    for line in skips.lines(rt.alloc(), wanted, source, from.unwrap_or(0))? {
        tell_place(rt, line.as_str());
    }
    Ok(())
}

// Says of each transaction what isn't whole. The only error is out of memory.
fn tell_each(
    rt: &(impl Eprint + AllocGlobal),
    joining: &Joining<'_>,
    report: &JoinReport,
) -> Result<(), AllocError> {
    let alloc = rt.alloc();
    let reading = &joining.wanted.reading;
    let direction = reading.direction.word();
    if report.gatherings.kept.is_empty() {
        return tell_none(rt, reading, &report.skips);
    }
    for (name, gathering) in report.gatherings.kept.iter() {
        let end = end_of(alloc, reading, joining.words.any, gathering)?;
        if let JoinEnd::Written(_) = end {
            let id = name_text(alloc, source_of(joining.user, reading), *name)?;
            let text = format!(in alloc; "{direction} {id}: whole, --id {id} writes it");
            tell(rt, text)?;
        }
        tell_end(rt, joining, *name, end, Some(gathering))?;
    }
    if report.gatherings.has_more {
        let text = "parts of more messages came: --id ID chooses one";
        return tell(rt, format!(in alloc; "{direction}: {text}"));
    }
    Ok(())
}

/// Says that no part of a message came. If some came that aren't read, it says nothing: what was
/// passed over tells of those. The only error is out of memory.
pub fn tell_none(
    rt: &(impl Eprint + AllocGlobal),
    reading: &Reading,
    skips: &Skips,
) -> Result<(), AllocError> {
    if skips.unread != 0 || skips.zeros != 0 {
        return Ok(());
    }
    let direction = reading.direction.word();
    let text = format!(in rt.alloc(); "{direction}: no part of a message came");
    tell(rt, text)
}

// Says how the join of a transaction ended of which this is kept, if not all of it is well, and
// gives the status of that. The only error is out of memory.
fn tell_end(
    rt: &(impl Eprint + AllocGlobal),
    joining: &Joining<'_>,
    name: Name,
    end: JoinEnd,
    gathering: Option<&Gathering>,
) -> Result<Status, AllocError> {
    let alloc = rt.alloc();
    let reading = &joining.wanted.reading;
    let who = who(alloc, joining.user, reading, name)?;
    let against = tell_size(rt, joining, &who, gathering)?;
    match end {
        JoinEnd::Written(_) if joining.words.first => return Ok(Status::Done),
        JoinEnd::Written(_) if against.is_none() => return Ok(Status::Done),
        JoinEnd::Written(_) | JoinEnd::BrokenOff => {}
        JoinEnd::Unfit(misfit) => tell(rt, unfit_text(alloc, &who, misfit))?,
        JoinEnd::Missing => tell(rt, missing_text(alloc, &who, gathering))?,
    }
    if let Some(behind) = against {
        let place = behind.saturating_add(joining.words.span.from.unwrap_or(0));
        let text = match end {
            JoinEnd::BrokenOff => format!(in alloc;
                "{who}: broken off: the part at octet {place} contradicts those before it"
            ),
            _ => format!(in alloc;
                "{who}: parts of another message of this name come from octet {place} on"
            ),
        };
        tell(rt, text)?;
    }
    Ok(Status::Refused)
}

// Says the part size of a transaction, if that isn't known before and more is told than what is
// wrong, and gives the place of the first part that contradicts those before it. The only error is
// out of memory.
fn tell_size(
    rt: &(impl Eprint + AllocGlobal),
    joining: &Joining<'_>,
    who: &str,
    gathering: Option<&Gathering>,
) -> Result<Option<u64>, AllocError> {
    let Some(gathering) = gathering else {
        return Ok(None);
    };
    let given = joining.wanted.reading.part_size;
    if let (true, None, Some(size)) = (joining.voice.tells(), given, gathering.came.size()) {
        let octets = octets_word(size);
        tell(
            rt,
            format!(in rt.alloc(); "{who}: parts of {size} {octets}"),
        )?;
    }
    Ok(gathering.against)
}

/// What names a transaction if this source is configured, behind its direction.
pub fn who(
    alloc: Global,
    source: u32,
    reading: &Reading,
    name: Name,
) -> Result<String, AllocError> {
    let direction = reading.direction.word();
    let word = name_text(alloc, source_of(source, reading), name)?;
    format!(in alloc; "{direction} {word}")
}

/// The source that is meant if none is said: 0 if the layout has no field for it.
pub fn source_of(source: u32, reading: &Reading) -> u32 {
    match reading.layout.user {
        Width::Absent => 0,
        _ => source,
    }
}

/// Why what was joined isn't written.
pub fn unfit_text(alloc: Global, who: &str, misfit: MisfitAs) -> Result<String, AllocError> {
    let joined = "the joined message is no packet";
    match misfit {
        MisfitAs::OtherKind => format!(in alloc; "{who}: {joined} of its direction"),
        MisfitAs::Unsure => format!(in alloc;
            "{who}: whole, but its parts didn't come in order, or sequence counts are missing \
             between them: join --any writes it"
        ),
        MisfitAs::NoPacket(fault) => {
            let (code, word) = (fault.code(), fault.name());
            format!(in alloc; "{who}: {joined}: fault {code} {word}")
        }
    }
}

// Which parts are missing, as a list for `split`. The only error is out of memory.
fn missing_text(
    alloc: Global,
    who: &str,
    gathering: Option<&Gathering>,
) -> Result<String, AllocError> {
    let list = match gathering {
        Some(gathering) => missing_list(alloc, &gathering.numbers)?,
        None => {
            let none = PartNumbers::new(alloc);
            let list = missing_list(alloc, &none);
            drop(none);
            list?
        }
    };
    format!(in alloc; "{who}: missing parts: {list}")
}

/// Says this on standard error, if there was memory for it.
pub fn tell(rt: &impl Eprint, text: Result<String, AllocError>) -> Result<(), AllocError> {
    let text = text?;
    tell_place(rt, text.as_str());
    Ok(())
}
