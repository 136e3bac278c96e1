//! The schedules of a replay: a text with a line for each choice.
#![tactic(auto)]

mod choice;
mod cuts;
mod fields;
mod lines;
mod numbers;
mod schedule;
#[cfg(test)]
mod tests;

pub use choice::Choice;
pub use schedule::{ScheduleStop, schedule_from};
