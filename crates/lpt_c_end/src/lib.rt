//! One end of the link for C: a whole node, with its memories, behind a handle. The types are those
//! of `include/lpt_end.h`; the first calls are `lpt_end_new` and `lpt_end_packet`, and docs/C.md
//! has the rest. `tools/archive.py` makes a static library of these calls.
//!
//! Each call is total. It answers 0, or the number of the first fault that applies, and then the
//! end is as it was; if nothing else refuses it, a call that takes memory may answer that there
//! is none. What a node makes to be sent stands in the end's outbox until the caller has sent it.
//! Memory comes from the three allocator functions of the kit, which the caller's program has.
//!
//! C has the address of a handle, an `LptEnd` in the library's memory, and declares that type
//! without its fields. `lpt_end_new`, `lpt_end_resume` and their `_sized` ones write it to an
//! `LptAddress`, every other call borrows the handle, and `lpt_end_free` takes an `LptAddress` by
//! value, which is passed as a pointer is. A handle is empty only while a call has its end, so no
//! call of C answers 106.
//!
//! `LptAddress` owns the handle behind its address, and `LptHeld` the end. Their functions that
//! move ownership, and those of `BoxFields`, seven in all, are proved by hand, and all else is
//! plain code above `take` and `put`.
#![tactic(auto)]

mod accessing;
mod address;
mod areas;
mod box_fields;
mod closed;
mod codes;
mod copying;
mod dropping;
mod end;
mod executing;
mod handle;
mod keeping;
mod kept;
pub mod laws;
mod making;
mod memories;
mod order;
mod outbox;
mod receiving;
mod refusing;
mod requesting;
mod sending;
mod sizing;
mod upkeep;
mod viewing;
mod walking;
mod words;

pub use accessing::{
    LptAccess, lpt_end_access, lpt_end_access_octets, lpt_end_drop_read, lpt_end_execute_given,
};
pub use address::LptAddress;
pub use areas::{LptArea, lpt_end_asked_area, lpt_end_memory_range};
pub use closed::lpt_end_closed;
pub use dropping::{lpt_end_asked, lpt_end_drop};
pub use executing::{lpt_end_execute, lpt_end_memory, lpt_end_read};
pub use handle::{LptEnd, LptHeld};
pub use keeping::{lpt_end_resume, lpt_end_state};
pub use making::{lpt_end_free, lpt_end_new};
pub use memories::LptMemory;
pub use receiving::{lpt_end_expire, lpt_end_give_up, lpt_end_packet, lpt_end_released};
pub use refusing::lpt_end_refuse;
pub use requesting::lpt_end_plain;
pub use sending::{lpt_end_finish, lpt_end_open, lpt_end_outgoing, lpt_end_part, lpt_end_sent};
pub use sizing::{LptSize, lpt_end_new_sized, lpt_end_resume_sized};
pub use upkeep::{
    lpt_end_name, lpt_end_rebase, lpt_end_restart, lpt_end_retire, lpt_end_tick, lpt_end_tick_many,
};
pub use viewing::{LptView, lpt_end_view};
pub use walking::{LptReception, LptSender, lpt_end_missing, lpt_end_reception, lpt_end_sender};
pub use words::{LptApplied, LptConfig, LptName, LptOutcome};
