//! Keepers of the desk's tables in memory.
#![tactic(auto)]

mod calls;
mod counting;
mod first;
mod keepers;
mod ordering;
mod places;
mod puts;
mod store;

pub use first::FirstTables;
pub use keepers::{MemoryKeeper, SureKeeper};
