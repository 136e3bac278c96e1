//! Declarations by scope: what each name of a C text refers to, and the first fault of its names (C11 6.2.1 to 6.2.4, 6.7, 6.9).
#![tactic(auto)]

mod declaring;
mod definitions;
mod limits;
mod naming;
mod placed;
mod things;

pub use declaring::{declare, declare_unit};
