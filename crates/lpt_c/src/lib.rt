//! The codecs for C: space packets, their headers, and the bodies of parts, abortion reports and
//! verification reports, read from and written to the caller's buffers. The types are those of
//! `include/lpt.h`; a first call is `lpt_read_packet`, and docs/C.md has the rest.
//! `tools/archive.py` makes a static library of these calls.
//!
//! No call takes memory, and each is total: whatever the octets and the numbers are, it answers 0,
//! or the number of what is wrong, and then it has left all as it was, with these exceptions: at
//! 103 it reports the length that is needed, and `lpt_slice_part` also the part's kind; at 101
//! `lpt_packet_length` reports the length. A writer writes to the front of a buffer and leaves the
//! rest of it; it reports how many octets it needs also if the buffer is too short. The numbers are
//! those of the faults, and a few of this library's own (`codes`). A caller in C promises what the
//! types of the parameters say: that lengths are true, that no pointer is null, and that nothing
//! overlaps.
#![tactic(auto)]

mod aborts;
mod checks;
mod checksum;
mod codes;
mod commands;
mod dumps;
mod filling;
mod loads;
mod packets;
mod parts;
mod pieces;
mod reports;
mod requests;
mod rest;
mod streams;
mod telemetry;
mod version;

pub use aborts::{LptAbort, lpt_read_abort, lpt_write_abort};
pub use checks::{LptChecked, lpt_read_check};
pub use checksum::{lpt_crc16, lpt_crc16_more};
pub use commands::{LptTc, LptTcHead, lpt_build_tc, lpt_read_tc, lpt_request_id, lpt_write_tc};
pub use dumps::{LptDumped, lpt_read_dump};
pub use loads::lpt_write_load;
pub use packets::{LptPacket, lpt_build_packet, lpt_read_packet, lpt_write_packet};
pub use parts::{
    LptPart, lpt_build_part, lpt_part_count, lpt_part_kind, lpt_read_part, lpt_slice_part,
    lpt_write_part,
};
pub use pieces::{lpt_count_strays, lpt_find_piece};
pub use reports::{LptReport, lpt_read_report, lpt_write_report};
pub use requests::{LptRange, lpt_write_check, lpt_write_dump};
pub use streams::lpt_packet_length;
pub use telemetry::{LptTm, LptTmHead, lpt_build_tm, lpt_read_tm, lpt_write_tm};
pub use version::lpt_version;
