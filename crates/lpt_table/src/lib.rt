//! The receptions that are open at one end, and when each last took a part (ECSS-E-ST-70-41C, large
//! packet transfer). One that took no part for as long as the timeout is overdue. A table is seen
//! as a finite map from names to the parts that were kept and the tick of the last one.
//!
//! The main types are `Table` and `Offer`, what becomes of a part. The first calls are `Table::new`
//! and `offer`. A reception that has become whole, or that a part has broken off, comes out of the
//! table; `settle` or `put_back` must follow, and neither takes memory.
#![tactic(auto)]

mod entries;
pub mod laws;
mod offer;
mod places;
mod table;

pub use lpt_part::{Mode, Part};
pub use lpt_reception::{Broken, Filling, Whole};
pub use offer::Offer;
pub use table::Table;
