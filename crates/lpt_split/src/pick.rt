//! Parts that are wanted of one message among several.

ghost use Rattle.std.specs.Prelude.{◌≡◌};
ghost use Rattle.std.specs.Option.{option_map};
ghost use Rattle.lpt_split.specs.Shares.{list_of, parts_picked};

/// Parts of the message under an identifier.
#[derive(Clone, Copy)]
pub struct Pick<'a> {
    /// The identifier.
    pub id: u32,
    /// A list of parts, as `3,7-9,12-`.
    pub parts: &'a [u8],
}

// The list of the parts that are wanted under this identifier: all, if nothing is picked; otherwise
// those that the first pick of it names, or none.
pub(crate) fn parts_picked<'a>(picks: &[Pick<'a>], id: u32) -> Option<&'a [u8]>
    ensures { option_map (λ list. list.now) result ≡ parts_picked picks.now id }
{
    if picks.is_empty() {
        return Some(b"1-");
    }
    list_of(picks, id)
}

// The list of the first pick of this identifier.
fn list_of<'a>(picks: &[Pick<'a>], id: u32) -> Option<&'a [u8]>
    ensures { option_map (λ list. list.now) result ≡ list_of picks.now id }
{
    for pick in picks {
        if pick.id == id {
            return Some(pick.parts);
        }
    }
    None
}
