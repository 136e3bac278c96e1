//! The coding of kept rows and of changes as bytes, and the taking of them out of bytes.
#![tactic(auto)]

mod coding;
mod laws;
mod numbers;
mod putting;
mod putting_commands;
mod putting_rows;
mod stop;
mod taking;
mod taking_commands;
mod taking_parts;
mod taking_rows;

pub use coding::{put_change, put_kept, take_change, take_kept};
pub use laws::{what_is_put_is_taken, what_is_taken_was_put};
