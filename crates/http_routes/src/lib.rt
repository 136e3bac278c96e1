//! Which resource of the desk the target of a request names.
#![tactic(auto)]

mod path;
mod resource;
mod route;
mod table;

pub use resource::Resource;
pub use route::Route;
pub use table::Routes;

#[cfg(test)]
mod tests;
