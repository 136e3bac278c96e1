//! What a well-formed program's runs end by: the undefined steps are those of the closed list.
#![tactic(auto)]

pub mod laws;
