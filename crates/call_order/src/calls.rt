//! Which functions name others.

/// The functions that one function calls or starts threads with, by their numbers.
#[derive(Drop)]
pub struct Callees {
    pub functions: Vec<u32>,
}
