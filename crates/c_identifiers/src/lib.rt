//! Where a C text declares and uses identifiers: what scopes see of a tree, as one flat list (C11 6.2.1).
#![tactic(auto)]

mod declaration_events;
mod event;
mod expression_events;
mod roles;
mod statement_events;
mod types;
mod unit_events;

pub use event::{Base, Event, Form, Role, TypeForm, Usage};
pub use unit_events::events;
