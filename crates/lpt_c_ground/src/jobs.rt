//! What a pass is to do, as C writes it.

ghost use Rattle.std.specs.Prelude.{◌≡◌, ◌≤◌, IsTrue};
ghost use Rattle.lpt_c_ground.specs.Jobs.{each_of, flags_fit, is_job, kind_from, least_part, numbers_fit, starts_in, terms_of};
ghost use Rattle.lpt_c_ground.specs.Plans.{place_of};

use lpt_ground::Terms;
use lpt_requests::AreaPlace;

/// A job: what is asked of a memory, and in which packets.
#[repr(C)]
#[derive(Clone, Copy)]
pub struct LptJob {
    /// What is asked: 1 that octets are loaded, 2 dumped, 3 checked.
    pub kind: u32,
    /// The memory's identifier.
    pub memory: u8,
    /// The acknowledgement flags of the requests.
    pub flags: u8,
    /// The application process identifier of all packets.
    pub apid: u16,
    /// The pass's own source.
    pub source: u16,
    /// The sequence count of the first request.
    pub count: u16,
    /// The part size of the link in octets.
    pub part_size: u32,
    /// After so many waits in a row that settled nothing the pass is given up, at least 1.
    pub tries: u32,
}

/// Octets of a memory.
#[repr(C)]
#[derive(Clone, Copy)]
pub struct LptPlace {
    /// The address of the first.
    pub address: u32,
    /// How many they are.
    pub len: u32,
}

/// What a job asks.
#[derive(Clone, Copy)]
pub(crate) enum JobKind {
    /// That octets are loaded.
    Load,
    /// That they are dumped.
    Dump,
    /// That they are checked.
    Check,
}

/// How many octets a check is of at most: of so many a checksum shows any three wrong bits.
const CHECK_EACH: u16 = 4_000;

/// How many octets more a dump's report has than the load of the same octets. A check's report is
/// as long as the load of so many octets.
const LESS: u32 = 6;

/// The greatest APID, sequence count, acknowledgement flags and part size.
const LAST_APID: u16 = 2_046;

const LAST_COUNT: u16 = 16_383;

const ALL_FLAGS: u8 = 15;

const GREATEST_PART: u32 = 1_024;

/// The flag that asks for a report of completion.
const COMPLETION: u8 = 8;

impl JobKind {
    // How few octets a part may have.
    fn least_part(self) -> u32
        ensures { result ≡ least_part self }
    {
        match self {
            JobKind::Load => 4,
            JobKind::Dump => 7,
            JobKind::Check => LESS,
        }
    }

    // How many octets a request is of at most.
    fn each(self, part_size: u32) -> u16
        requires least { least_part self ≤ part_size }
        requires most { part_size ≤ 1024 }
        ensures { result ≡ each_of self part_size }
    {
        match self {
            JobKind::Load => part_size as u16,
            JobKind::Dump => (part_size - LESS) as u16,
            JobKind::Check => CHECK_EACH,
        }
    }

    // Whether requests of this kind may have these acknowledgement flags.
    fn takes(self, flags: u8) -> bool
        ensures { result ≡ flags_fit self flags }
    {
        match self {
            JobKind::Load => COMPLETION <= flags && flags <= ALL_FLAGS,
            JobKind::Dump => flags <= ALL_FLAGS,
            JobKind::Check => flags <= ALL_FLAGS,
        }
    }
}

impl LptJob {
    // What is asked.
    pub(crate) fn kind(&self) -> JobKind
        ensures { result ≡ kind_from self.now.kind }
    {
        if self.kind == 1 {
            JobKind::Load
        } else if self.kind == 2 {
            JobKind::Dump
        } else {
            JobKind::Check
        }
    }

    // Whether each number is in its range.
    pub(crate) fn is_job(&self) -> bool
        ensures { result ≡ is_job self.now }
    {
        1 <= self.kind && self.kind <= 3 && self.numbers_fit(self.kind())
    }

    // The same of all but the kind.
    fn numbers_fit(&self, kind: JobKind) -> bool
        ensures { result ≡ numbers_fit kind self.now }
    {
        self.apid <= LAST_APID
            && self.count <= LAST_COUNT
            && kind.takes(self.flags)
            && kind.least_part() <= self.part_size
            && self.part_size <= GREATEST_PART
            && 1 <= self.tries
    }

    // How many octets a request is of at most.
    pub(crate) fn each(&self) -> u16
        requires { IsTrue (is_job self.now) }
        ensures { result ≡ each_of (kind_from self.now.kind) self.now.part_size }
    {
        self.kind().each(self.part_size)
    }

    // Whose reports count in its pass, and when that is given up.
    pub(crate) fn terms(&self) -> Terms
        ensures { result ≡ terms_of self.now }
    {
        Terms {
            apid: self.apid,
            source: self.source,
            starts: starts_in(self.flags),
            tries: self.tries,
        }
    }
}

impl LptPlace {
    // The place as requests have it.
    pub(crate) fn area(&self) -> AreaPlace
        ensures { result ≡ place_of self.now }
    {
        AreaPlace {
            address: self.address,
            len: self.len,
        }
    }
}

// Whether these flags ask for reports of the start.
fn starts_in(flags: u8) -> bool
    ensures { result ≡ starts_in flags }
{
    2 <= flags % 4
}
