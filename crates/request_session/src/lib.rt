//! A session over one connection: requests are cut from its bytes, answered one by one, and their replies written.
#![tactic(auto)]

mod buffer;
mod reading;
mod running;
mod service;
mod stop;

pub use running::serve_requests;
pub use service::{Answer, Service, Turn};
pub use stop::SessionStop;
