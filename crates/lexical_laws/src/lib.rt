//! What C11 6.4 says of tokens, as laws of the definitions that the lexer is exact against.
#![tactic(auto)]

mod classes;
mod comments;
mod keywords;
mod lexemes;
mod parts;
mod places;
mod values;

pub use classes::classes_are_of_words;
pub use comments::comments_are_passed;
pub use keywords::keywords_are_no_names;
pub use lexemes::longest_token_is_cut;
pub use parts::text_is_its_parts;
pub use places::places_rise;
pub use values::literal_is_its_digits;
