//! The bits of a word of 64.

ghost use Rattle.std.specs.Prelude.{◌≡◌, ◌≢◌, ◌==◌, ℕ, ◌<◌, IfSome, IfNone};
ghost use Rattle.std.specs.Int.{bit_at};
ghost use Rattle.lpt_ledger.specs.Bits.{bit_for};

// Whether a bit is set.
#[tactic(auto, using(std::proofs::lemmas::Nat::Bits::shr_and_one))]
pub(crate) fn has_bit(word: u64, bit: u32) -> bool
    requires { bit < 64 }
    ensures { result ≡ (bit_at word bit == 1) }
{
    (word >> bit) & 1 == 1
}

// A word with one bit set, or cleared.
pub(crate) fn with_bit(word: u64, bit: u32, on: bool) -> u64
    requires { bit < 64 }
    ensures bit { bit_at result bit ≡ bit_for on }
    ensures others { (i : ℕ) → i < 64 → i ≢ bit → bit_at result i ≡ bit_at word i }
{
    if on {
        word | (1 << bit)
    } else {
        word & !(1 << bit)
    }
}

// The lowest bit of a word that is clear.
pub(crate) fn lowest_clear(word: u64) -> Option<u32>
    ensures within { IfSome result (λ b. b < 64) }
    ensures clear { IfSome result (λ b. bit_at word b ≡ 0) }
    ensures first { IfSome result (λ b. (i : ℕ) → i < b → bit_at word i ≡ 1) }
    ensures full { IfNone result ((i : ℕ) → i < 64 → bit_at word i ≡ 1) }
{
    if word == u64::MAX {
        None
    } else {
        Some(word.trailing_ones())
    }
}
