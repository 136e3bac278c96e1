//! An order of the functions that one function needs, in which each one stands behind those that it names.
#![tactic(auto)]

pub mod calls;
mod needed;
mod placing;
#[cfg(test)]
mod tests;

pub use calls::Callees;
pub use placing::{OrderStop, order};
