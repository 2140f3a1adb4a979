//! What stands behind a header: octets of the caller's, or such as stand at their place already.

ghost use Rattle.std.specs.Prelude.{◌≡◌};
ghost use Rattle.lpt_c.specs.Standing.{rest_len};

/// The octets behind a header.
#[derive(Clone, Copy)]
pub(crate) enum Rest<'a> {
    /// These, which are to be copied to their place.
    Given(&'a [u8]),
    /// So many, which stand at their place in the buffer already.
    Standing(usize),
}

impl Rest<'_> {
    /// How many there are.
    #[tactic(auto, unfolding(crate::specs::Standing::rest_len))]
    pub(crate) fn len(self) -> usize
        ensures { result ≡ rest_len self.entry }
    {
        match self {
            Rest::Given(octets) => octets.len(),
            Rest::Standing(len) => len,
        }
    }
}
