//! Which version the library is.

ghost use Rattle.std.specs.Prelude.{◌≡◌};
ghost use Rattle.lpt_c.specs.Codes.{version_number};

/// The library's version as a number: 1,000,000 for the major one, 1,000 for the minor one, and 1
/// for the patch. It is 0.1.0, so it answers 1,000, as the header's `LPT_VERSION_NUMBER` says.
pub fn lpt_version() -> u32
    ensures { result ≡ version_number }
{
    1_000
}
