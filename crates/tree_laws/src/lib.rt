//! Laws of the trees of C texts.
#![tactic(auto)]

mod laws;

pub use laws::tree_is_one;
