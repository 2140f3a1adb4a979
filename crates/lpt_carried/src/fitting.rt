//! The part size by which a body would be read.

ghost use Rattle.std.specs.Prelude.{◌≡◌};
ghost use Rattle.lpt_carried.specs.Fitting.{fitting_size};

use lpt_part::{Kind, read_part};

/// How many octets of a part's body stand before the part's own.
const PART_FIELDS: usize = 4;

/// The least part size.
const LEAST_PART_SIZE: usize = 4;

/// The greatest part size.
const GREATEST_PART_SIZE: usize = 1024;

/// The part size by which the body of a part of this kind would be read, if it is a first part:
/// the number of another may be any.
pub fn fitting_size(kind: Kind, body: &[u8]) -> Option<u32>
    ensures { result ≡ fitting_size kind body.now }
{
    if kind != Kind::First {
        return None;
    }
    let own = body.len().saturating_sub(PART_FIELDS);
    if own < LEAST_PART_SIZE || own > GREATEST_PART_SIZE {
        return None;
    }
    match read_part(kind, body, own as u32) {
        Ok(_) => Some(own as u32),
        Err(_) => None,
    }
}
