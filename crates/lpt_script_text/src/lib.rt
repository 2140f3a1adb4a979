//! The texts that the tool prints: what an event did or why it was refused, what a world shows, and
//! what octets are when they are decoded. A text is lines of words, with a space between the words.
//! Numbers are decimal; octets are hexadecimal digits in lower case, or `-` if there are none.
//!
//! Texts are made here and written nowhere; the only error is out of memory. A text is a `String`:
//! a new one, or, in a call whose name has `write` in it, the caller's, which is made anew and can
//! serve for all lines. The first calls are `write_accepted` with an event and its reply, and
//! `print_decoded` with octets; `print_areas` says more of them.
//!
//! `read_areas` reads which areas a message of the memory service names (ECSS-E-ST-70-41C, service
//! 6): the memory, how many, and where the first begins and how long it is. It takes no memory.
#![tactic(auto)]

mod answers;
mod areas;
mod decoding;
pub mod laws;
mod naming;
mod printing;
mod pushing;
mod words;

pub use answers::{
    print_applied, print_expired, print_outcome, print_retired, write_accepted, write_refused,
};
pub use areas::{Areas, read_areas};
pub use decoding::{Decoded, print_decoded};
pub use lpt_packet::Direction;
pub use naming::print_areas;
pub use printing::{
    print_applied_count, print_clear, print_journal, print_memory_front, print_none, print_packet,
    print_plain_count, print_release, print_unreadable,
};
pub use words::write_digits;
