//! What is wrong with a configuration, or with another file of tables.

use std::fmt;

/// Why a configuration is refused.
#[derive(Clone, Copy, Debug, PartialEq, Eq)]
pub enum Reason {
    /// The text is no TOML document.
    NotToml,
    /// There is no such key.
    Unknown,
    /// The key has no default, and isn't there.
    Missing,
    /// The value isn't an integer.
    NotInteger,
    /// The integer isn't from the least to the greatest.
    OutOfRange { least: u32, greatest: u32 },
    /// The value names no mode.
    NotMode,
    /// The value is neither true nor false.
    NotFlag,
    /// The value isn't how many bits a field of a header has.
    NotHeaderBits,
    /// The value isn't how many bits a field of a part has.
    NotPartBits,
    /// The value is neither how many octets a time has nor the name of a time code.
    NotTime,
    /// The value is no day of the years 1900 to 9999.
    NotDay,
    /// No time code is named whose epoch this is.
    NoTimeCode,
    /// The value isn't an array.
    NotArray,
    /// The value, or the item of the array, isn't a table.
    NotTable,
    /// There are no memories, or more than 16.
    Count,
    /// Another memory has this identifier too.
    Twice,
}

impl fmt::Display for Reason {
    fn fmt<W: fmt::Write>(&self, f: &mut fmt::Formatter<W>) -> fmt::Result {
        let text = match self {
            Reason::NotToml => "not TOML",
            Reason::Unknown => "no such key",
            Reason::Missing => "has no value",
            Reason::NotInteger => "not an integer",
            Reason::OutOfRange { least, greatest } => {
                return write!(f, "not from {least} to {greatest}");
            }
            Reason::NotMode => "neither \"any\" nor \"strict\"",
            Reason::NotFlag => "neither true nor false",
            Reason::NotHeaderBits => "not 0, 8 or 16",
            Reason::NotPartBits => "neither 16 nor 32",
            Reason::NotTime => "neither 0 to 16 octets nor a code such as \"cuc 4 3\"",
            Reason::NotDay => "not a day from 1900-01-01 to 9999-12-31",
            Reason::NoTimeCode => "means something only where time names a code",
            Reason::NotArray => "not an array of tables",
            Reason::NotTable => "not a table",
            Reason::Count => "not 1 to 16 tables",
            Reason::Twice => "another memory has it too",
        };
        f.write_str(text)
    }
}

/// In which table of a file a key stands.
#[derive(Clone, Copy)]
pub enum WrongPlace {
    /// In that of the whole file.
    Top,
    /// In the memory of this place of the array, from 0.
    Memory(usize),
    /// In the table of this name.
    Table(&'static str),
}

/// What is wrong with the table of a file, and at which key.
#[derive(Clone, Copy)]
pub struct Wrong<'t> {
    /// The table in which it is.
    pub place: WrongPlace,
    /// The key; the empty text for a memory as a whole.
    pub key: &'t str,
    /// Why it is wrong.
    pub reason: Reason,
}

impl<'t> Wrong<'t> {
    /// What is wrong at a key of the whole file's table.
    pub fn at(key: &'t str, reason: Reason) -> Self {
        Wrong {
            place: WrongPlace::Top,
            key,
            reason,
        }
    }

    /// The same fault, in this table.
    pub fn within(self, place: WrongPlace) -> Self {
        Wrong {
            place,
            key: self.key,
            reason: self.reason,
        }
    }
}
