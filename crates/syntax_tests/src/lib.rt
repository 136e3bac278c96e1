//! Tests of the syntax: where texts are refused, and that a printed tree is read as the same tree.
#![tactic(auto)]

#[cfg(test)]
mod refusals;
#[cfg(test)]
mod rows;
#[cfg(test)]
mod trees;
