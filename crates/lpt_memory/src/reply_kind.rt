//! The reports that answer requests.

ghost use Rattle.std.specs.Prelude.{◌≡◌};
ghost use Rattle.lpt_memory.specs.ReplyKinds.{subtype_of};

/// Which report answers a request.
#[derive(Clone, Copy, Debug, PartialEq, Eq)]
pub enum ReplyKind {
    /// The report that has the octets of a memory.
    Dump,
    /// The report that has their checksums.
    Check,
}

impl ReplyKind {
    /// The message subtype of the report, of service 6: 6 that of a dump, 10 that of a check.
    pub fn subtype(self) -> u8
        ensures { result ≡ subtype_of self }
    {
        match self {
            ReplyKind::Dump => 6,
            ReplyKind::Check => 10,
        }
    }
}
