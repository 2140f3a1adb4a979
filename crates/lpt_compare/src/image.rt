//! What a memory should hold.

use crate::Checked;
use lpt_packet::crc16;

/// What a memory should hold from an address on.
#[derive(Clone, Copy)]
pub struct Image<'a> {
    /// The address of its first octet.
    pub from: u32,
    /// The octets.
    pub octets: &'a [u8],
}

impl Image<'_> {
    ghost use Rattle.std.specs.Prelude.{◌≡◌, ◌≤◌, false};
    ghost use Rattle.std.specs.List.Sorted.{IsNonDecreasingBy};
    ghost use Rattle.lpt_compare.specs.declared.checked.Checked.{Checked};
    ghost use Rattle.lpt_compare.specs.Images.{agrees, checksum_at, is_shown, AreShown, IsFirstOpen};

    /// The checksum that its octets have where an area of a report is, if it has all of them.
    pub fn checksum(&self, check: &Checked) -> Option<u16>
        ensures { result ≡ checksum_at self.now.from self.now.octets.now check.now }
    {
        let at = check.address.checked_sub(self.from)? as usize;
        let octets = self.octets.get(at..at + usize::from(check.len))?;
        Some(crc16(octets))
    }

    /// The first address of its octets that lies in no area that a report agrees on, if one does.
    ///
    /// In whatever order the areas come, the checksum of each is taken once at most.
    pub fn first_open(&self, mut checks: Vec<Checked>) -> Option<u64>
        ensures { IsFirstOpen self.now.from self.now.octets.now checks.items result }
    {
        checks.sort_unstable_by_key(|check| check.address);
        let open = self.reach(&checks);
        let end = u64::from(self.from) + self.octets.len() as u64;
        if end <= open {
            return None;
        }
        Some(open)
    }

    // The first address from its own on that lies in no area that a report agrees on, of areas in
    // the order of their addresses.
    fn reach(&self, checks: &[Checked]) -> u64
        requires { IsNonDecreasingBy (λ (c : Checked). c.address) checks.now }
        ensures from { self.now.from ≤ result }
        ensures shown { AreShown self.now.from self.now.octets.now checks.now self.now.from result }
        ensures open { is_shown self.now.from self.now.octets.now checks.now result ≡ false }
    {
        let mut at = u64::from(self.from);
        for check in checks {
            if at < u64::from(check.address) {
                return at;
            }
            if at < check.end() && self.agrees(check) {
                at = check.end();
            }
        }
        at
    }

    // Whether a report agrees on an area.
    fn agrees(&self, check: &Checked) -> bool
        ensures { result ≡ agrees self.now.from self.now.octets.now check.now }
    {
        self.checksum(check) == Some(check.checksum)
    }
}
