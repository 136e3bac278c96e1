//! The bytes of HTTP/1.1 responses whose bodies are JSON.
#![tactic(auto)]

mod building;
mod method;
mod status;

pub use building::{error_response, response};
pub use method::Method;
pub use status::StatusCode;

#[cfg(test)]
mod tests;
