//! Small texts made by hand: what the report says of each whatever the sound answers, and a run that breaks the guideline.
#![tactic(auto)]

pub mod laws;
