//! What holds along the paths of a program's threads, each condition taken freely: depths of mutexes, states of library
//! objects, lives, and the order of points; and what these say of every run.
#![tactic(auto)]

pub mod laws;
