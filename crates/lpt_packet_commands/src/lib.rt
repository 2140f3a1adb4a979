//! The commands of packets: listed, decoded, verified, compared, asked for, and carried over a link
//! that loses.
//!
//! Each takes the handles that it uses by bounds. The first call is `list`.
#![tactic(auto)]

mod checksums;
mod compares;
mod decoding;
mod layouts;
mod links;
mod lists;
mod patch_lists;
mod requests;
mod verifies;

pub use checksums::checksum;
pub use compares::compare;
pub use decoding::decode;
pub use links::link;
pub use lists::list;
pub use lpt_command_line::{
    ChecksumWords, CompareWords, DecodeWords, LinkWords, ListWords, PatchWords, RequestWords,
    VerifyWords,
};
pub use lpt_events::Config;
pub use lpt_io::{Failure, Machine, Status, Voice};
pub use patch_lists::patch;
pub use requests::request;
pub use verifies::verify;
