//! Tests of names over trees made by hand: definitions, limits, hiding, and what each use refers to.
#![tactic(auto)]

#[cfg(test)]
mod definitions;
#[cfg(test)]
mod hiding;
#[cfg(test)]
mod limits;
#[cfg(test)]
mod name_spaces;
#[cfg(test)]
mod trees;
