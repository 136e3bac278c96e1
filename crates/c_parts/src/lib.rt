//! The parts of which the tree of a C text is made.
//!
//! The groups of parts have their drops written out: a derived one is unfolded, and proved anew, wherever a part is dropped.
#![tactic(auto)]

mod chain;
mod declaration_part;
mod expression_part;
mod external_part;
mod leaf;
mod part;
mod parts;
mod statement_part;

pub use chain::Chain;
pub use declaration_part::{DeclarationPart, Enumeration, Objects, Structure};
pub use expression_part::{
    AssignmentSign, Bracketed, Branches, ExpressionPart, InfixOperator, Operand, PrefixOperator,
    SizeofOperand, StepSign,
};
pub use external_part::{ExternalPart, ExternalRest, FunctionRest, NameRest, ParameterName};
pub use leaf::Leaf;
pub use part::Part;
pub use parts::Parts;
pub use statement_part::{SimpleRest, StatementPart};
