//! Prints the tree of a C text as a text with the same tree.
#![tactic(auto)]

mod declaration;
mod expression;
mod operator;
mod statement;
mod token;
mod unit;

pub use unit::print;
