//! The trees of C texts: which lists of tokens are translation units of the subset (C11 6.9), and where any
//! other list leaves the grammar.
#![tactic(auto)]

mod actions;
mod grammar;
mod syntax;
mod syntax_tree;
mod tables;

pub use actions::ACTIONS;
pub use grammar::c_grammar;
pub use syntax::derivation;
pub use syntax_tree::tree;
pub use tables::{PRODUCTIONS, ROWS};
