//! The checksum's register: an octet further, and behind zeros.

ghost use Rattle.std.specs.Prelude.{◌≡◌, ◌/◌, ◌<◌, ℕ};
ghost use Rattle.lpt_packet.specs.Checksums.{bits, octets_in, shift, shift_all};
ghost use Rattle.lpt_stream.specs.Registers.{zeros_in};

// Shifts one bit in.
fn shift_in(register: u16, bit: u16) -> u16
    requires { bit < 2 }
    ensures { result ≡ shift register bit }
{
    let moved = register << 1;
    if (register >> 15) ^ bit == 1 {
        moved ^ 0x1021
    } else {
        moved
    }
}

// Shifts an octet in, its most significant bit first.
pub(crate) fn octet_in(register: u16, octet: u8) -> u16
    ensures { result ≡ shift_all register (bits octet) }
{
    (register << 8) ^ of_octet((register >> 8) as u8 ^ octet)
}

// Shifts these octets in.
pub(crate) fn octets_in(first: u16, octets: &[u8]) -> u16
    ensures { result ≡ octets_in first octets.now }
{
    let mut register = first;
    for octet in octets {
        register = octet_in(register, *octet);
    }
    register
}

// The same into a register of zeros: the polynomial is taken for each bit of its upper half, and
// for each of its lower one, to which that is added.
fn of_octet(octet: u8) -> u16
    ensures { result ≡ shift_all 0 (bits octet) }
{
    let taken = u16::from(octet ^ (octet >> 4));
    (taken << 12) ^ (taken << 5) ^ taken
}

// What zeros make of a register, if they make this of the register 1: the sum of what they make
// of each of its bits.
pub(crate) fn behind_zeros(register: u16, of_one: u16) -> u16
    ensures { (n : ℕ) → of_one ≡ zeros_in 1 n → result ≡ zeros_in register n }
{
    let mut sum = 0;
    let mut place: u32 = 16;
    while place > 0 {
        place -= 1;
        sum = with_bit(sum, of_one, register >> place);
    }
    sum
}

// The same for a register of one bit more, its lowest, if they make this sum of it without that.
fn with_bit(sum: u16, of_one: u16, register: u16) -> u16
    ensures { (n : ℕ) → of_one ≡ zeros_in 1 n → sum ≡ zeros_in (register / 2) n
        → result ≡ zeros_in register n }
{
    let moved = shift_in(sum, 0);
    if register % 2 == 1 {
        moved ^ of_one
    } else {
        moved
    }
}

// What so many octets of zeros make of the register 1, by their number's bits, from the highest on.
pub(crate) fn power(count: usize) -> u16
    requires { count < 131072 }
    ensures { result ≡ zeros_in 1 count }
{
    let mut power = 1;
    let mut place: u32 = 17;
    while place > 0 {
        place -= 1;
        power = power_with_bit(power, count >> place);
    }
    power
}

// The same of this number, if this is that of its half.
fn power_with_bit(half: u16, count: usize) -> u16
    ensures { half ≡ zeros_in 1 (count / 2) → result ≡ zeros_in 1 count }
{
    let doubled = behind_zeros(half, half);
    if count % 2 == 1 {
        octet_in(doubled, 0)
    } else {
        doubled
    }
}
