//! An area of a check report.

/// An area of a check report: octets of a memory, and their checksum there.
#[derive(Clone, Copy)]
pub struct Checked {
    /// The address of the first octet.
    pub address: u32,
    /// How many octets, from 1.
    pub len: u16,
    /// Their checksum.
    pub checksum: u16,
}

impl Checked {
    ghost use Rattle.std.specs.Prelude.{◌≡◌, ◌+◌};
    ghost use Rattle.lpt_compare.specs.Images.{has};

    // The address behind it.
    pub(crate) fn end(&self) -> u64
        ensures { result ≡ self.now.address + self.now.len }
    {
        u64::from(self.address) + u64::from(self.len)
    }

    // Whether it has an octet of this address.
    pub(crate) fn has(&self, address: u64) -> bool
        ensures { result ≡ has self.now address }
    {
        u64::from(self.address) <= address && address < self.end()
    }
}
