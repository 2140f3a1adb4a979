//! A time code.

ghost use Rattle.std.specs.Prelude.{◌≡◌};
ghost use Rattle.lpt_carried.specs.Codes.{day_octets};

/// How octets say a time, by a code of CCSDS 301.0-B. A day has 86,400 seconds; leap seconds aren't
/// known.
#[derive(Clone, Copy)]
pub struct TimeCode {
    /// The mission's own epoch, if it has one: the day from whose beginning on is counted, as a
    /// number of days behind 1 January 1900. The standard's is 1 January 1958.
    pub epoch: Option<u32>,
    /// Whether a preamble field of one octet stands in front.
    pub preamble: bool,
    /// What the octets behind it count.
    pub fields: TimeFields,
}

/// What the octets of a time count.
#[derive(Clone, Copy)]
pub enum TimeFields {
    /// Seconds, and parts of one: the unsegmented code, CUC.
    Unsegmented {
        /// The octets of seconds, 1 to 4.
        coarse: u8,
        /// The octets of parts of a second, 0 to 3.
        fine: u8,
    },
    /// Days, milliseconds of the day in 32 bits, and parts of one: the day segmented code, CDS.
    DaySegmented {
        /// Whether days have 24 bits, and not 16.
        long: bool,
        /// What stands behind the milliseconds.
        submillisecond: Submillisecond,
    },
}

/// Parts of a millisecond.
#[derive(Clone, Copy)]
pub enum Submillisecond {
    /// None.
    Absent,
    /// Microseconds, in 16 bits.
    Microseconds,
    /// Picoseconds, in 32 bits.
    Picoseconds,
}

impl TimeCode {
    ghost use Rattle.std.specs.Prelude.{◌≡◌};
    ghost use Rattle.lpt_carried.specs.Codes.{code_octets};

    /// How many octets a time has, with its preamble field.
    pub fn octets(&self) -> usize
        ensures { result ≡ code_octets self.now }
    {
        usize::from(self.preamble) + self.fields.octets()
    }
}

impl TimeFields {
    ghost use Rattle.std.specs.Prelude.{◌≡◌, ◌<◌};
    ghost use Rattle.lpt_carried.specs.Codes.{field_octets, lengths_fit};

    // How many octets they have.
    fn octets(self) -> usize
        ensures value { result ≡ field_octets self }
        ensures few { result < 512 }
    {
        match self {
            TimeFields::Unsegmented { coarse, fine } => usize::from(coarse) + usize::from(fine),
            TimeFields::DaySegmented {
                long,
                submillisecond,
            } => day_octets(long) + 4 + submillisecond.octets(),
        }
    }

    // Whether a time code may have as many.
    pub(crate) fn lengths_fit(self) -> bool
        ensures { result ≡ lengths_fit self }
    {
        match self {
            TimeFields::Unsegmented { coarse, fine } => 1 <= coarse && coarse <= 4 && fine <= 3,
            TimeFields::DaySegmented {
                long: _,
                submillisecond: _,
            } => true,
        }
    }
}

impl Submillisecond {
    ghost use Rattle.std.specs.Prelude.{◌≡◌};
    ghost use Rattle.lpt_carried.specs.Codes.{octets_of};

    // How many octets they have.
    fn octets(self) -> usize
        ensures { result ≡ octets_of self }
    {
        match self {
            Submillisecond::Absent => 0,
            Submillisecond::Microseconds => 2,
            Submillisecond::Picoseconds => 4,
        }
    }
}

// How many octets days have.
pub(crate) fn day_octets(long: bool) -> usize
    ensures { result ≡ day_octets long }
{
    if long { 3 } else { 2 }
}
