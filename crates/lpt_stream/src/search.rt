//! What is kept of a stretch of octets.

ghost use Rattle.std.specs.Prelude.{◌≡◌, ◌≢◌, ◌≤◌, ◌<◌, ◌+◌, ℕ, bit_xor, false, length, OnOk};
ghost use Rattle.lpt_packet.specs.Sizes.{longest_packet};
ghost use Rattle.lpt_stream.specs.Registers.{ArePowers, AreRegisters, most_powers, most_registers, zeros_in};

use crate::register::{behind_zeros, octet_in};
use std::alloc::{AllocError, Global};

/// So many registers are kept at most: those of the two longest packets.
const MOST: usize = 131_086;

/// The checksum's registers before the octets of a stretch, from its front on, as far as they were
/// asked for.
#[derive(Drop)]
pub struct Search {
    // One for each octet, and perhaps of some that were passed over.
    registers: Vec<u16>,
    // Of how many.
    passed: usize,
    // What so many octets of zeros make of the register 1: of none, of one, and so on.
    powers: Vec<u16>,
    ghost ordered: { passed ≤ length registers.items },
    ghost few: { length registers.items ≤ most_registers },
    ghost powers_are: { ArePowers powers.items },
    ghost powers_few: { length powers.items ≤ most_powers },
}

impl Search {
    ghost use Rattle.std.specs.Prelude.{◌≡◌, ◌≢◌, ◌≤◌, ◌<◌, ◌+◌, List, ℕ, drop, take, false, length, OnOk};
    ghost use Rattle.lpt_packet.specs.Checksums.{checksum};
    ghost use Rattle.lpt_packet.specs.Sizes.{longest_packet};
    ghost use Rattle.lpt_stream.specs.Registers.{AreRegisters, most_registers};
    ghost use Rattle.lpt_stream.specs.Searches.{Knows};

    /// A search that keeps nothing yet, of whatever octets.
    pub fn new(alloc: Global) -> Self
        ensures { (octets : List ℕ) → Knows result octets }
    {
        Search {
            registers: Vec::new(alloc),
            passed: 0,
            powers: Vec::new(alloc),
        }
    }

    /// Passes over so many octets of the stretch.
    pub fn pass(&mut self, count: usize)
        ensures { (octets : List ℕ) → Knows self.old octets → Knows self.new (drop count octets) }
    {
        if count < self.registers.len() - self.passed {
            self.passed += count;
        } else {
            self.forget();
        }
    }

    // Keeps nothing of the stretch.
    fn forget(&mut self)
        ensures knows { (octets : List ℕ) → Knows self.new octets }
        ensures passed { self.new.passed ≡ 0 }
    {
        self.registers.clear();
        self.passed = 0;
    }

    /// Whether the checksum of the first `len` octets may be 0, as that of each packet is, with its
    /// packet error control. If it may not, it isn't. What is kept grows with the octets that are
    /// asked for, and takes none anew; without memory for it the answer is that it may.
    pub fn may_fit(&mut self, octets: &[u8], len: usize) -> bool
        requires knows { Knows self.old octets.now }
        requires within { len ≤ length octets.now }
        requires short { len ≤ longest_packet }
        ensures knows { Knows self.new octets.now }
        ensures never { result ≡ false → checksum (take len octets.now) ≢ 0 }
    {
        self.make_way(len);
        let far = self.passed + len;
        let Ok(()) = extend_registers(&mut self.registers, self.passed, octets, len) else {
            return true;
        };
        let Ok(()) = extend_powers(&mut self.powers, len) else {
            return true;
        };
        let first = self.registers[self.passed];
        may_be_zero(first, self.powers[len], self.registers[far])
    }

    // Forgets what is kept of the stretch, if there is no room for so many octets more.
    fn make_way(&mut self, len: usize)
        requires { len ≤ longest_packet }
        ensures knows { (octets : List ℕ) → Knows self.old octets → Knows self.new octets }
        ensures room { self.new.passed + len < most_registers }
    {
        if len >= MOST.saturating_sub(self.passed) {
            self.forget();
        }
    }
}

// Whether the checksum of so many octets may be 0, by the registers before and behind them, and
// what as many zeros make of the register 1.
pub(crate) fn may_be_zero(before: u16, of_one: u16, behind: u16) -> bool
    ensures small { before < 65536 }
    ensures never { (n : ℕ) → result ≡ false → of_one ≡ zeros_in 1 n
        → zeros_in (bit_xor before 65535) n ≢ behind }
{
    behind_zeros(before ^ 0xffff, of_one) == behind
}

// Goes on with the registers up to the one behind so many octets.
fn extend_registers(
    registers: &mut Vec<u16>,
    passed: usize,
    octets: &[u8],
    len: usize,
) -> Result<(), AllocError>
    requires are { AreRegisters passed registers.old.items octets.now }
    requires within { len ≤ length octets.now }
    requires begun { passed ≤ length registers.old.items }
    requires few { length registers.old.items ≤ most_registers }
    requires room { passed + len < most_registers }
    ensures are { AreRegisters passed registers.new.items octets.now }
    ensures few { length registers.new.items ≤ most_registers }
    ensures far { OnOk result (passed + len < length registers.new.items) }
    ensures least { passed ≤ length registers.new.items }
{
    begin_registers(registers, passed, octets)?;
    while registers.len() <= passed + len {
        let last = registers.len() - 1;
        let next = octet_in(registers[last], octets[last - passed]);
        registers.push(next)?;
    }
    Ok(())
}

// Begins with any register, if there is none.
fn begin_registers(registers: &mut Vec<u16>, passed: usize, octets: &[u8]) -> Result<(), AllocError>
    requires are { AreRegisters passed registers.old.items octets.now }
    requires begun { passed ≤ length registers.old.items }
    requires few { length registers.old.items ≤ most_registers }
    requires room { passed < most_registers }
    ensures are { AreRegisters passed registers.new.items octets.now }
    ensures few { length registers.new.items ≤ most_registers }
    ensures some { OnOk result (passed < length registers.new.items) }
    ensures least { passed ≤ length registers.new.items }
{
    if registers.len() > passed {
        return Ok(());
    }
    registers.push(0)?;
    Ok(())
}

// Goes on with the powers up to that of so many octets.
fn extend_powers(powers: &mut Vec<u16>, len: usize) -> Result<(), AllocError>
    requires are { ArePowers powers.old.items }
    requires few { length powers.old.items ≤ most_powers }
    requires short { len < most_powers }
    ensures are { ArePowers powers.new.items }
    ensures few { length powers.new.items ≤ most_powers }
    ensures far { OnOk result (len < length powers.new.items) }
{
    begin_powers(powers)?;
    while powers.len() <= len {
        let next = octet_in(powers[powers.len() - 1], 0);
        powers.push(next)?;
    }
    Ok(())
}

// Begins with the first power, if there is none.
fn begin_powers(powers: &mut Vec<u16>) -> Result<(), AllocError>
    requires are { ArePowers powers.old.items }
    requires few { length powers.old.items ≤ most_powers }
    ensures are { ArePowers powers.new.items }
    ensures few { length powers.new.items ≤ most_powers }
    ensures some { OnOk result (0 < length powers.new.items) }
{
    if !powers.is_empty() {
        return Ok(());
    }
    powers.push(1)?;
    Ok(())
}
