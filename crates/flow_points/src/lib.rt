//! The points of a program, numbered by a formula, and the moves between them.
#![tactic(auto)]

mod counting;
pub mod graph;
pub mod laws;
mod moves;
pub mod points;
mod readers;
mod stand;
pub mod threads;
pub mod transfer;

pub use counting::{ExpandStop, expand};
pub use points::NumberedPoints;
