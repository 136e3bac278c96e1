use crate::declaration_part::DeclarationPart;
use crate::expression_part::ExpressionPart;
use crate::external_part::ExternalPart;
use crate::leaf::Leaf;
use crate::statement_part::StatementPart;

/// What a symbol of the grammar stands for in a text: a token, or what the tree has for it.
#[derive(Drop)]
pub enum Part<'a> {
    Leaf(Leaf<'a>),
    Expression(ExpressionPart),
    Declaration(DeclarationPart),
    External(ExternalPart),
    Statement(StatementPart),
}
