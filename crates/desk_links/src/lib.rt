//! Connections as the product sees them: links that are read and written, and acceptors that make one connection after another current, each with counts of their faults.
#![tactic(auto)]

mod acceptor;
mod calls;
mod connections;
mod link;
mod memory;
mod sure;
mod tcp;

pub use acceptor::Acceptor;
pub use link::Link;
pub use memory::MemoryAcceptor;
pub use sure::SureAcceptor;
pub use tcp::TcpAcceptor;

#[cfg(test)]
mod tests;
