//! The JSON of the desk: the bodies of its replies, and the commands that the bodies of requests are.
#![tactic(auto)]

mod commands;
mod fields;
mod findings;
mod reading;
mod refusals;
mod replies;
mod summary;
mod texts;
mod writing;

pub use commands::{category_change, empty, new_deviation, new_permit, new_project};
pub use writing::{refusal_text, reply_text, stop_text};
