//! A replay: one given run, step by step, to the guideline that it breaks.
#![tactic(auto)]

pub mod laws;
mod outcome;
mod rows;

pub use outcome::{End, Replay};
pub use rows::{StepList, StepRow};
