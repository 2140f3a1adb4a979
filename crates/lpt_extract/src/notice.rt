//! What is told of a stream as it comes.

/// What became of an area of a dump report, of a report, or of octets that are no packet.
///
/// A place is where the packet begins: how many octets of the stream come before it. One beyond
/// 2^64 - 1 is told as that.
#[derive(Clone, Copy)]
pub enum Notice {
    /// The octets of an area were taken.
    Taken(Span),
    /// An area ends past the last address, 4294967295, and was passed over. The number is the place
    /// of its report.
    PastEnd(Span, u64),
    /// The checksum of an area is wrong, and the area was passed over. The number is the place of
    /// its report.
    WrongChecksum(Span, u64),
    /// The body of a report, of so many octets, isn't read, and the report was passed over. The
    /// second number is its place.
    Unread(usize, u64),
    /// A report is of this memory, which isn't the one that is wanted.
    OtherMemory(u8),
    /// A dump report, or a part of a message, is of this application process, which isn't the one
    /// that is wanted.
    OtherApid(u16),
    /// A packet carries a part of a message, and this wasn't read: it may be a dump report. The
    /// number is the packet's place.
    OfPart(u64),
    /// As many octets as a header says are no packet.
    Damaged,
    /// An octet is part of no packet.
    Stray,
}

/// Where the octets of an area stand.
#[derive(Clone, Copy)]
pub struct Span {
    /// The memory's identifier.
    pub memory: u8,
    /// The address of the first octet.
    pub address: u32,
    /// How many octets.
    pub len: usize,
}

/// Who is told what becomes of areas, of reports and of what is no packet.
pub trait Listener {
    ghost use Rattle.std.specs.Prelude.{◌∷◌, [], List, Option};
    ghost use Rattle.lpt_extract.specs.declared.notice.Notice.{Notice};
    ghost use Rattle.lpt_extract.specs.Notices.{Hears};

    // What was told so far, if that is known.
    ghost heard: { Self → Option (List Notice) };

    /// Is told something more.
    fn tell(&mut self, notice: Notice)
        ensures { Hears (heard self.old) (heard self.new) (notice ∷ []) };
}
