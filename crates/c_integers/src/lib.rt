//! C's integer types: their widths, their numbers, and conversions.
#![tactic(auto)]

mod conversion;
#[cfg(test)]
mod tests;
mod widths;

pub use conversion::{converted, in_type, number_of, rest};
pub use widths::{bits, is_in, is_signed};
