//! Messages split into packets, from a file or standard input to standard output.

ghost use Rattle.std.specs.Prelude.{IfOk};
ghost use Rattle.lpt_events.specs.Configs.{IsConfig};
ghost use Rattle.lpt_layout.specs.Parts.{IsPartSizeAs};

use lpt_carried::{Layouts, Tailored};
use lpt_command_line::{SplitOneWords, SplitWords, WideName, WordFault, name_within};
use lpt_events::Config;
use lpt_io::{
    Failure, Incoming, Keeping, Machine, Status, copied_ended, octets_word, open_input, output,
    own_or_read, reading_of, tell_text, word_refused,
};
use lpt_layout::Width;
use lpt_layout_join::{MisfitAs, unfit};
use lpt_packet::LONGEST_PACKET;
use lpt_split::{Form, SplitEnd, Wanted, Writing, greatest, split_message};
use lpt_stream::whole_length;
use std::alloc::{AllocError, Global};

/// The most octets of time or spare octets.
const MOST: usize = 255;

/// The octets of time and spare octets that packets of layouts have.
#[derive(Clone, Copy)]
pub struct Fill {
    clock: [u8; 4],
    zeros: [u8; MOST],
}

impl Fill {
    /// What this configuration gives: its clock as time, and zeros.
    pub fn new(config: &Config) -> Fill {
        Fill {
            clock: config.clock.to_be_bytes(),
            zeros: [0; MOST],
        }
    }

    // So much time: the clock if it has four octets, otherwise zeros.
    fn time(&self, octets: u8) -> &[u8] {
        if octets == 4 {
            &self.clock
        } else {
            self.zeros(octets)
        }
    }

    fn zeros(&self, octets: u8) -> &[u8] {
        &self.zeros[..usize::from(octets)]
    }
}

/// Writes the packets of a message's parts: by the layouts of a file if one is given, otherwise by
/// the profile.
///
/// Errors: `Read` if a file can't be opened or read; `Config` if the layouts' file is too
/// long; `Write`, `Memory`.
pub fn split<R: Machine>(
    rt: &R,
    config: &Config,
    words: &SplitOneWords<'_>,
) -> Result<Status, Failure>
    requires { IsConfig config.now }
{
    let Some(layouts) = own_or_read(rt, config.part_size, words.split.layout)? else {
        return Ok(Status::Unreadable);
    };
    let tailored = layouts.tailored_in(words.split.direction);
    let name = match name_in(&words.split, tailored) {
        Ok(name) => name,
        Err(fault) => return Ok(word_refused(rt, rt.alloc(), &fault)),
    };
    let fill = Fill::new(config);
    let wanted = wanted_of(config, tailored, &*words, name, &fill);
    let message = open_input(rt, words.split.file)?;
    let mut source = Keeping::new(rt.alloc(), message, LONGEST_PACKET)?;
    let status = split_from(rt, config, &layouts, words, &wanted, &mut source);
    drop(source);
    status
}

// What is wanted of the message.
fn wanted_of<'a>(
    config: &Config,
    tailored: &Tailored,
    words: &SplitOneWords<'a>,
    name: WideName,
    fill: &'a Fill,
) -> Wanted<'a>
    requires { IsConfig config.now }
{
    let writing = writing_of(config, tailored, &words.split, name, fill);
    Wanted {
        writing,
        id: name.id,
        parts: words.parts.as_bytes(),
        first: words.split.first,
        whole: words.split.whole,
    }
}

/// The name that the words give, if the layout has room for it.
///
/// Errors: `Id`.
pub fn name_in<'a>(words: &SplitWords<'a>, tailored: &Tailored) -> Result<WideName, WordFault<'a>> {
    name_by("<ID>", words.name, tailored.packets.user, tailored.parts.id)
}

/// The name that a word at this place gives, if fields of these widths have room for its source and
/// its identifier.
///
/// Errors: `Id`.
pub fn name_by<'a>(
    place: &'static str,
    word: &'a str,
    user: Width,
    id: Width,
) -> Result<WideName, WordFault<'a>> {
    let source = match user {
        Width::Absent => u32::MAX,
        width => greatest(width),
    };
    name_within(place, word, source, greatest(id))
}

/// The user that is meant if this source is configured: 0 if the layout has no field for it.
pub fn user_of(given: WideName, source: u32, width: Width) -> u32 {
    match width {
        Width::Absent => 0,
        _ => given.source.unwrap_or(source),
    }
}

/// How packets of this layout are written that go under this name.
pub fn writing_of<'a>(
    config: &Config,
    tailored: &Tailored,
    words: &SplitWords<'_>,
    name: WideName,
    fill: &'a Fill,
) -> Writing<'a>
    requires { IsConfig config.now }
{
    let packets = tailored.packets;
    Writing {
        direction: words.direction,
        apid: config.apid,
        layout: packets,
        parts: tailored.parts,
        part_size: part_size(tailored, config),
        user: user_of(name, u32::from(config.source), packets.user),
        time: fill.time(packets.time),
        spare: fill.zeros(packets.spare),
        form: if words.pcap {
            Form::Capture
        } else {
            Form::Plain
        },
        clock: config.clock,
    }
}

// The part size of the layout, or else of the configuration.
fn part_size(tailored: &Tailored, config: &Config) -> u32
    ensures { IsPartSizeAs result }
{
    let size = tailored.part_size.unwrap_or(config.part_size);
    size.clamp(1, 65_535)
}

// The same of a message that was opened.
fn split_from<R: Machine>(
    rt: &R,
    config: &Config,
    layouts: &Layouts,
    words: &SplitOneWords<'_>,
    wanted: &Wanted<'_>,
    source: &mut Keeping<Incoming<R>>,
) -> Result<Status, Failure> {
    let mut out = output(rt)?;
    let split = split_message(rt.alloc(), wanted, source, &mut out);
    let input = source.source().inner();
    match copied_ended(rt, input, words.split.file, out, split)? {
        SplitEnd::Written(_) => {
            let (size, kept) = (wanted.writing.part_size, source.octets_kept());
            tell_misfit(rt, config, layouts, &words.split, size, kept);
            Ok(Status::Done)
        }
        end => {
            let size = wanted.writing.part_size;
            tell_text(rt, reason(rt.alloc(), size, words.parts, end));
            Ok(status_of(end))
        }
    }
}

// Says so if what was written is no message. If it was split into parts of so many octets, it is
// also said how whoever joins it gets it, and by which word several packets are split.
fn tell_misfit(
    rt: &(impl Eprint + AllocGlobal),
    config: &Config,
    layouts: &Layouts,
    words: &SplitWords<'_>,
    size: u32,
    octets: &[u8],
) {
    let reading = reading_of(layouts, config.apid, words.direction);
    let is_in_parts = octets.len() > size as usize;
    let advice = if is_in_parts {
        ": join it with --any"
    } else {
        ""
    };
    let text = match unfit(&reading, false, true, octets) {
        // It is whole, so that it is unsure doesn't come.
        None | Some(MisfitAs::Unsure) => return,
        Some(MisfitAs::OtherKind) => {
            format!(in rt.alloc(); "the message is no packet of this direction{advice}")
        }
        Some(MisfitAs::NoPacket(fault)) => {
            let (code, name) = (fault.code(), fault.name());
            let each = match whole_length(octets) {
                Some(len) if is_in_parts && len < octets.len() => {
                    "; --each splits each packet of a file"
                }
                _ => "",
            };
            format!(in rt.alloc(); "the message is no packet (fault {code} {name}){advice}{each}")
        }
    };
    tell_text(rt, text);
}

/// The status of a split that ended so.
pub fn status_of(end: SplitEnd) -> Status {
    match end {
        SplitEnd::Written(_) => Status::Done,
        SplitEnd::NoSuchPart(_) => Status::Unreadable,
        _ => Status::Refused,
    }
}

/// Why a message isn't split into parts of so many octets, of which this word names some.
pub fn reason(alloc: Global, size: u32, parts: &str, end: SplitEnd) -> Result<String, AllocError> {
    match end {
        SplitEnd::Written(_) => Ok(String::new(alloc)),
        SplitEnd::Short(0) => format!(in alloc; "a message of no octets isn't split"),
        SplitEnd::Short(len) => {
            let octets = octets_word(len);
            format!(in alloc;
                "a message of {len} {octets} fits in a part of {size}: --whole writes it as it is"
            )
        }
        SplitEnd::Long => format!(in alloc;
            "a message of more than 65542 octets isn't split; --each splits each packet of a file"
        ),
        SplitEnd::Many(last) => {
            format!(in alloc; "a message of {last} parts isn't split: the most are 65535")
        }
        SplitEnd::NoSuchPart(last) => {
            format!(in alloc; "--parts {parts}: not a list of parts from 1 to {last}")
        }
        SplitEnd::Unfit => {
            format!(in alloc; "the identifier, the source or a number doesn't fit the layout")
        }
        SplitEnd::TooLong => format!(in alloc; "a part of {size} octets has no room in a packet"),
    }
}
