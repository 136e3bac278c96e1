//! The desk machine: what it answers to a command, and what it leaves of the tables, over any keeper.
#![tactic(auto)]

mod acting;
mod caller;
mod checks;
mod commands;
mod covering;
mod decision;
mod entries;
mod forms;
mod pattern;
mod same;
mod stop;

pub use acting::{act, seen};
pub use caller::Caller;
pub use stop::{DeskStop, Field};
