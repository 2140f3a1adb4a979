//! The lines that tell what became of octets and of a pass, for a reader or as objects of JSON.

use lpt_ground_run::{FailureNotice, RunCounts};
use lpt_io::octets_word;
use std::alloc::{AllocError, Global};

/// Octets of a memory.
#[derive(Clone, Copy)]
pub struct Stretch {
    /// The memory's identifier.
    pub memory: u8,
    /// The address of the first.
    pub address: u64,
    /// How many they are.
    pub octets: u64,
}

/// What became of octets that aren't as they should be.
#[derive(Clone, Copy)]
pub enum Became {
    /// No report says what became of their requests.
    Open,
    /// Their requests failed with this notice.
    Failed(FailureNotice),
    /// Somewhere among them the memory has others.
    Unlike,
    /// From the first of them on the memory has others, of which some may be alike.
    UnlikeFrom,
}

/// What became of these octets, and of which file of a list they are, if they are of one. The only
/// error is out of memory.
pub fn became_line(
    alloc: Global,
    json: bool,
    became: Became,
    stretch: Stretch,
    file: Option<&str>,
) -> Result<String, AllocError> {
    let mut line = if json {
        became_object(alloc, became, stretch)?
    } else {
        became_words(alloc, became, stretch)?
    };
    match file {
        Some(file) if json => {
            let name = json_text(alloc, file)?;
            line.write(format_args!(",\"file\":\"{name}\""))?;
        }
        Some(file) => line.write(format_args!(" of {file}"))?,
        None => {}
    }
    if json {
        line.push_str("}")?;
    }
    Ok(line)
}

// A text as it stands in quotation marks. The only error is out of memory.
fn json_text(alloc: Global, text: &str) -> Result<String, AllocError> {
    let mut quoted = String::new(alloc);
    for letter in text.chars() {
        if letter.is_control() {
            let number = u32::from(letter);
            quoted.write(format_args!("\\u{number:04x}"))?;
        } else if letter == '"' || letter == '\\' {
            quoted.write(format_args!("\\{letter}"))?;
        } else {
            quoted.write(format_args!("{letter}"))?;
        }
    }
    Ok(quoted)
}

// What became of these octets, in words. The only error is out of memory.
fn became_words(alloc: Global, became: Became, stretch: Stretch) -> Result<String, AllocError> {
    let Stretch {
        memory,
        address,
        octets,
    } = stretch;
    let word = octets_word(octets as usize);
    let last = address.saturating_add(octets.saturating_sub(1));
    match became {
        Became::Open => {
            format!(in alloc; "open: memory {memory} from {address} on, {octets} {word}")
        }
        Became::Failed(FailureNotice::Unread) => format!(in alloc;
            "failed, code not read: memory {memory} from {address} on, {octets} {word}"
        ),
        Became::Failed(FailureNotice::Code(code) | FailureNotice::Foreign(code)) => {
            let why = sentence(became);
            format!(in alloc;
                "failed {code} {why}: memory {memory} from {address} on, {octets} {word}"
            )
        }
        Became::Unlike if octets <= 1 => {
            format!(in alloc; "differs: memory {memory}, address {address}")
        }
        Became::Unlike => format!(in alloc;
            "differs: memory {memory}, somewhere in addresses {address}-{last}"
        ),
        Became::UnlikeFrom => {
            format!(in alloc; "differs: memory {memory}, first at address {address}")
        }
    }
}

// The same as an object of JSON, without its end. The only error is out of memory.
fn became_object(alloc: Global, became: Became, stretch: Stretch) -> Result<String, AllocError> {
    let Stretch {
        memory,
        address,
        octets,
    } = stretch;
    let state = match became {
        Became::Open => "open",
        Became::Failed(_) => "failed",
        Became::Unlike | Became::UnlikeFrom => "differs",
    };
    let mut text = format!(in alloc; "{{\"state\":\"{state}\",")?;
    match became {
        Became::Failed(FailureNotice::Unread) => text.push_str("\"reason\":\"code not read\",")?,
        Became::Failed(FailureNotice::Code(code) | FailureNotice::Foreign(code)) => {
            let why = sentence(became);
            text.write(format_args!("\"code\":{code},\"reason\":\"{why}\","))?;
        }
        _ => {}
    }
    text.write(format_args!("\"memory\":{memory},\"address\":{address},\"octets\":{octets}"))?;
    Ok(text)
}

// What the code of a failure says: nothing that is known, if it isn't this service's own.
fn sentence(became: Became) -> &'static str {
    let Became::Failed(FailureNotice::Code(code)) = became else {
        return "unknown code";
    };
    match code {
        1 => "unknown service or subtype",
        2 => "malformed body",
        3 => "unknown memory",
        4 => "out of range",
        5 => "wrong checksum",
        6 => "reply too long",
        7 => "no free identifier",
        8 => "too many open",
        _ => "unknown code",
    }
}

/// How a pass of so many requests ended, of which an earlier run settled so many and so much was
/// counted, and whether all were completed. The only error is out of memory.
pub fn done_line(
    alloc: Global,
    json: bool,
    noun: &str,
    (many, earlier): (usize, usize),
    counts: RunCounts,
    done: bool,
) -> Result<String, AllocError> {
    let (put, rounds, came) = (counts.up, counts.rounds, counts.down);
    if json {
        return format!(in alloc;
            "{{\"end\":\"{noun}\",\"completed\":{done},\"requests\":{many},\"packets\":{put},\
             \"rounds\":{rounds},\"came\":{came},\"earlier\":{earlier}}}"
        );
    }
    let s = if many == 1 { "" } else { "s" };
    let packets = if put == 1 { "packet" } else { "packets" };
    let word = if rounds == 1 { "round" } else { "rounds" };
    format!(in alloc; "{many} {noun}{s} completed: {put} {packets}, {rounds} {word}")
}
