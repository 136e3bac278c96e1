//! Litmus tests of the meaning: small programs made by hand, and runs of them.
#![tactic(auto)]

pub mod guidelines;
pub mod runs;
pub mod undefined;
