//! What is reported of a configuration that is refused.

ghost use Rattle.std.specs.Prelude.{◌≡◌, None, Some, not, is_some, option_and_then, IfOk, IfSome};
ghost use Rattle.toml.specs.Errors.{IsMemory};
ghost use Rattle.toml.specs.Parse.{parse_document};
ghost use Rattle.lpt_settings.specs.Settings.{settings_of};

use crate::place::{line_at, line_of};
use crate::settings::judge;
use crate::wrong::{Reason, Wrong, WrongPlace};
use std::alloc::{AllocError, Global};
use std::fmt;
use toml::de::Error;

/// What is wrong with a configuration file, where, and why.
///
/// As a text it names the place and the reason, as in `apid: not from 0 to 2046`,
/// `memory 2: size: not an integer` with the second memory, and `not TOML: duplicate key`, in the
/// words of the reader of TOML.
#[derive(Debug, Drop)]
pub struct Complaint {
    line: Option<usize>,
    place: String,
    reason: Reason,
    // What the reader of TOML says, behind `: `; else nothing.
    words: String,
}

impl Complaint {
    /// The line, counted from 1. `None` if no line begins with the key, as if escapes spell it.
    pub fn line(&self) -> Option<usize>
        ensures { result ≡ self.now.line }
    {
        self.line
    }

    /// Why the configuration is refused.
    pub fn reason(&self) -> Reason
        ensures { result ≡ self.now.reason }
    {
        self.reason
    }
}

impl fmt::Display for Complaint {
    fn fmt<W: fmt::Write>(&self, f: &mut fmt::Formatter<W>) -> fmt::Result {
        let place = self.place.as_str();
        let reason = self.reason;
        let words = self.words.as_str();
        write!(f, "{place}{reason}{words}")
    }
}

/// The first thing for which `read_config` refuses a text; `None` if it means settings.
///
/// The only error is out of memory.
pub fn why_refused(alloc: Global, text: &str) -> Result<Option<Complaint>, AllocError>
    // There is one exactly if the text isn't a TOML document, or its table means no settings.
    ensures found { IfOk result (λ c. not (is_some c)
        ≡ is_some (option_and_then settings_of (parse_document text.now))) }

    // That the text is no TOML document is reported if it is none.
    ensures reason { parse_document text.now ≡ None
        → IfOk result (λ c. IfSome c (λ it. it.reason ≡ Reason.NotToml)) }
{
    match toml::table_from_str(alloc, text) {
        Ok(table) => match judge(&table) {
            Ok(_) => Ok(None),
            Err(wrong) => Ok(Some(complain(alloc, text, wrong)?)),
        },
        Err(error) => Ok(Some(complain_of_toml(alloc, text, &error)?)),
    }
}

/// What the reader of TOML says of a text that it doesn't read.
///
/// The only error is out of memory; that of the reader is one.
pub fn complain_of_toml(alloc: Global, text: &str, error: &Error) -> Result<Complaint, AllocError>
    ensures reason { IfOk result (λ c. c.reason ≡ Reason.NotToml) }
    ensures memory { IfOk result (λ _. ¬ IsMemory error.now) }
{
    let Some(span) = error.span() else {
        return Err(AllocError);
    };
    let line = line_at(text, span.start);
    not_toml(alloc, line, error.message())
}

// What the reader of TOML says of a text, of this line.
fn not_toml(alloc: Global, line: usize, message: &str) -> Result<Complaint, AllocError>
    ensures line { IfOk result (λ c. c.line ≡ Some line) }
    ensures reason { IfOk result (λ c. c.reason ≡ Reason.NotToml) }
{
    Ok(Complaint {
        line: Some(line),
        place: String::new(alloc),
        reason: Reason::NotToml,
        words: format!(in alloc; ": {message}")?,
    })
}

/// What is wrong with the table of a text, with its place there.
///
/// The only error is out of memory.
pub fn complain(alloc: Global, text: &str, wrong: Wrong<'_>) -> Result<Complaint, AllocError>
    ensures { IfOk result (λ c. c.reason ≡ wrong.entry.reason) }
{
    Ok(Complaint {
        line: line_of(text, wrong.place, wrong.key),
        place: print_place(alloc, wrong.place, wrong.key)?,
        reason: wrong.reason,
        words: String::new(alloc),
    })
}

// The table and the key, if there are any.
fn print_place(alloc: Global, place: WrongPlace, key: &str) -> Result<String, AllocError> {
    let front = print_table(alloc, place)?;
    if key.is_empty() {
        return Ok(front);
    }
    let table = front.as_str();
    format!(in alloc; "{table}{key}: ")
}

// The table, if it isn't that of the whole file.
fn print_table(alloc: Global, place: WrongPlace) -> Result<String, AllocError> {
    match place {
        WrongPlace::Top => Ok(String::new(alloc)),
        WrongPlace::Memory(place) => {
            let number = place.saturating_add(1);
            format!(in alloc; "memory {number}: ")
        }
        WrongPlace::Table(name) => format!(in alloc; "{name}: "),
    }
}
