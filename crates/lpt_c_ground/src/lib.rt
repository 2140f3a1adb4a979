//! Ground's end of a pass for C: a job's requests, which are sent again by rounds until a report
//! has settled each, behind a handle. The types are those of `include/lpt_ground.h`; the first
//! calls are `lpt_ground_new` and `lpt_ground_next`, and docs/C.md has the rest. `tools/archive.py`
//! makes a static library of these calls.
//!
//! Each call is total. It answers 0, or the number of the first fault that applies, and then the
//! pass is as it was; if nothing else refuses it, a call that takes memory may answer that there
//! is none. Memory comes from the three allocator functions of the kit, which the caller's
//! program has.
//!
//! C has the address of a handle, an `LptGround` in the library's memory, and declares that type
//! without its fields. `lpt_ground_new` writes it to an `LptGroundAddress`, every other call
//! borrows the handle, and `lpt_ground_free` takes an `LptGroundAddress` by value, which is passed
//! as a pointer is. A handle is empty only while a call has its pass, so no call of C answers 106.
//!
//! `LptGroundAddress` owns the handle behind its address, and `LptGroundHeld` the pass. Their
//! functions that move ownership, and those of `BoxFields`, seven in all, are proved by hand, and
//! all else is plain code above `take` and `put`.
#![tactic(auto)]

mod address;
mod box_fields;
mod codes;
mod copying;
mod grounds;
mod handle;
mod hearing;
mod jobs;
pub mod laws;
mod making;
mod places;
mod requests;
mod sending;
mod telling;

pub use address::LptGroundAddress;
pub use handle::{LptGround, LptGroundHeld};
pub use hearing::{lpt_ground_close, lpt_ground_packet, lpt_ground_quiet};
pub use jobs::{LptJob, LptPlace};
pub use making::{lpt_ground_free, lpt_ground_new};
pub use sending::{lpt_ground_next, lpt_ground_outgoing, lpt_ground_sent};
pub use telling::{
    LptFate, LptProgress, lpt_ground_agrees, lpt_ground_dumped, lpt_ground_fate,
    lpt_ground_progress, lpt_ground_report,
};
