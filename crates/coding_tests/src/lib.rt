//! Tests of the coding of kept rows and of changes: bytes worked out by hand, bytes that are no row, and what is taken again.
#![tactic(auto)]

#[cfg(test)]
mod tests;
