//! What a memory should hold, compared with the check reports of a stream (ECSS-E-ST-70-41C,
//! service 6): each tells the checksum that octets of the memory have, in 16 bits.
//!
//! If a report agrees, the memory had those octets, but for one case in 65,536 of others. The
//! main types are `Checked`, an area of a report, and `Image`. The first calls are `read_checks`,
//! with a source, and then `Image::checksum` and `Image::first_open`.
//!
//! `differing_stretches` says what has to be loaded so that one image becomes another.
#![tactic(auto)]

mod checked;
mod checks;
mod differing;
mod image;
mod others;
mod reading;

pub use checked::Checked;
pub use checks::{Checks, read_checks};
pub use differing::{Change, Stretch, differing_stretches};
pub use image::Image;
pub use lpt_carried::Layout;
pub use lpt_text::{Source, StreamFault};
pub use others::Others;
