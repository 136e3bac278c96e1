//! The actions of a body in the turns of the counted loops round them.
#![tactic(auto)]

pub mod count;
pub mod laws;
pub mod spots;
