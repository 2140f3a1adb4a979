//! An area of a dump report.

ghost use Rattle.std.specs.Prelude.{◌<◌, ◌≤◌, length};

/// An area of a dump report, as it stands there.
#[derive(Clone, Copy)]
pub(crate) struct SeenArea<'a> {
    pub(crate) address: u32,
    pub(crate) octets: &'a [u8],
    pub(crate) checksum: u16,
    ghost some: { 0 < length octets.now },
    ghost short: { length octets.now ≤ 65535 },
}
