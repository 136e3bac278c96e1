//! The steps of a program's runs, as clocks follow them: what happens before what, and which runs race.
#![tactic(auto)]

pub mod laws;
