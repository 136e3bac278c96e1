//! What each name of a C text refers to: the innermost visible declaration of its identifier (C11 6.2.1 to 6.2.4).
#![tactic(auto)]

mod library;
mod linkages;
mod nesting;
mod scopes;
mod seen;
mod spelled;
mod spelling;
mod text;
mod typedefs;

pub use linkages::{Linked, is_refused, mixes};
pub use scopes::{Binding, Identifier, declares, is_second};
pub use seen::{Seen, seen_of};
pub use spelled::{Class, Facts, Spelled, Spot};
pub use spelling::texts_of;
pub use text::spelled_by;
