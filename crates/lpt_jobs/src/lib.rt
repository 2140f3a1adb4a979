//! The queue of requests that a spacecraft node has released and not executed yet. Jobs are
//! numbered from 0 in each boot, in order of release. A worker claims the oldest job that waits,
//! reads its message, and commits the reading. Only the oldest is executed, and a restart drops
//! all.
//!
//! The main types are `JobQueue` and `Front`, what is at its front. The first calls are
//! `JobQueue::new`, `push` with a message, `claim`, `commit` and `pop_front`.
#![tactic(auto)]

mod front;
mod job;
pub mod laws;
mod queue;

pub use front::Front;
pub use queue::JobQueue;
