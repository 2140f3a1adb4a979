//! The state of each transaction's name at one end of a large packet transfer
//! (ECSS-E-ST-70-41C): free, open or closed.
//!
//! The main type is `Ledger`, which keeps the `State` of each name, and takes memory for those that
//! aren't free alone. The first calls are `Ledger::new` and `open`; `state` and
//! `least_free` look, and a refused call answers a `LedgerFault` and changes nothing. `runs` lists
//! the names in use, and `shut_run` closes such a list again.
#![tactic(auto)]

mod bits;
mod fault;
mod full;
pub mod laws;
mod ledger;
mod names;
mod page;
mod run;
mod runs;
mod state;

pub use fault::LedgerFault;
pub use ledger::Ledger;
pub use run::NameRun;
pub use runs::Runs;
pub use state::State;
