//! Streams: readers and writers that keep their octets and their faults apart, texts read whole or
//! line by line, texts written whole, items between commas, and the faults by which such work ends.
//! A text is read to its end, to a failed read or past 16,777,216 octets. What its lines say is not
//! looked at.
//!
//! The main types are `Source`, `Sink`, `FromStd`, which is either over one of std's, `LineBuffer`
//! and `StreamFault`. The first calls are `FromStd::new`, `LineBuffer::find_line` and `write_out`.
#![tactic(auto)]

mod fault;
mod flushing;
mod items;
mod line_end;
mod lines;
mod reading;
mod stream;
mod taking;
mod texts;

pub use fault::StreamFault;
pub use flushing::Flushed;
pub use items::cut_item;
pub use line_end::first_place;
pub use lines::LineBuffer;
pub use reading::{End, read_text};
pub use stream::{FromStd, Sink, Source, flush_out, write_out};
pub use taking::{LineTaker, Taken, each_line};
pub use texts::{LONGEST_LINE, LONGEST_TEXT, ended_line, split_line};
