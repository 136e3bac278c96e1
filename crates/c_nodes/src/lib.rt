//! The nodes of the tree of a C text, from their parts.
#![tactic(auto)]

mod action;
mod declarator_nodes;
mod expression_nodes;
mod external_nodes;
mod operand_nodes;
mod postfix_nodes;
mod specifier_nodes;
mod statement_nodes;
mod switch_nodes;

pub use action::{Action, part};
pub use declarator_nodes::DeclaratorAction;
pub use expression_nodes::ExpressionAction;
pub use external_nodes::ExternalAction;
pub use operand_nodes::OperandAction;
pub use specifier_nodes::SpecifierAction;
pub use statement_nodes::StatementAction;
pub use switch_nodes::SwitchAction;
