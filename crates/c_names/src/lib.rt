//! What the names of a C text are declared as, and which declaration each use of one refers to (C11 6.2.1 to 6.2.4).
#![tactic(auto)]

mod declaration;
mod names;

pub use declaration::{Declaration, Kind, Linkage, NameSpace, StorageDuration};
pub use names::Names;
