//! The faults of a phase of the checker, and the refusal by the first of them.
#![tactic(auto)]

mod fault;
mod first;

pub use fault::{Fault, FaultName, Limit};
pub use first::{first_fault, refuse};
