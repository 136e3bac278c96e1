//! A service of HTTP requests: it reads them, answers what is none by itself, and hands the others to a responder.
#![tactic(auto)]

mod connection;
mod responder;
mod search;

pub use connection::HttpService;
pub use responder::Responder;

#[cfg(test)]
mod tests;
