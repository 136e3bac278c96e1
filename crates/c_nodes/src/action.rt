ghost use Rattle.std.specs.Prelude.{◌≡◌, IfOk};
ghost use Rattle.c_parts.specs.PartData;
ghost use Rattle.c_parts.specs.PartViews.{part_view, parts_view};
ghost use Rattle.c_parts.specs.Reading.{Fits};
ghost use Rattle.c_nodes.specs.Nodes.{kinds, node};
ghost use Rattle.c_nodes.specs.OperandNodes;
ghost use Rattle.c_nodes.specs.ExpressionNodes;
ghost use Rattle.c_nodes.specs.SpecifierNodes;
ghost use Rattle.c_nodes.specs.DeclaratorNodes;
ghost use Rattle.c_nodes.specs.ExternalNodes;
ghost use Rattle.c_nodes.specs.StatementNodes;
ghost use Rattle.c_nodes.specs.SwitchNodes;

use crate::declarator_nodes::{DeclaratorAction, declarator_node};
use crate::expression_nodes::{ExpressionAction, expression_node};
use crate::external_nodes::{ExternalAction, external_node};
use crate::operand_nodes::{OperandAction, operand_node};
use crate::specifier_nodes::{SpecifierAction, specifier_node};
use crate::statement_nodes::{StatementAction, statement_node};
use crate::switch_nodes::{SwitchAction, switch_node};
use c_parts::{Part, Parts};
use std::alloc::{AllocError, Global};

/// What a production makes of its parts.
#[derive(Clone, Copy)]
pub enum Action {
    /// A tag, which is a token.
    Tag,
    Operand(OperandAction),
    Expression(ExpressionAction),
    Specifier(SpecifierAction),
    Declarator(DeclaratorAction),
    External(ExternalAction),
    Statement(StatementAction),
    Switch(SwitchAction),
}

/// What the production makes of the parts. Each group is a function that is not inlined, so that a step sets up the
/// frame of its own group alone.
pub fn part<'a>(
    alloc: Global,
    action: Action,
    parts: &mut Parts<'a>,
) -> Result<Part<'a>, AllocError>
    requires { Fits (kinds action) (parts_view parts.now) }
    ensures { IfOk result (λ p. part_view p ≡ node action (parts_view parts.old)) }
{
    match action {
        Action::Tag => Ok(Part::Leaf(parts.leaf())),
        Action::Operand(action) => operand_part(alloc, action, parts),
        Action::Expression(action) => expression_part(alloc, action, parts),
        Action::Specifier(action) => specifier_part(alloc, action, parts),
        Action::Declarator(action) => declarator_part(alloc, action, parts),
        Action::External(action) => external_part(alloc, action, parts),
        Action::Statement(action) => statement_part(alloc, action, parts),
        Action::Switch(action) => switch_part(alloc, action, parts),
    }
}

#[inline(never)]
fn operand_part<'a>(
    alloc: Global,
    action: OperandAction,
    parts: &mut Parts<'a>,
) -> Result<Part<'a>, AllocError>
    requires { Fits (OperandNodes.kinds action) (parts_view parts.now) }
    ensures { IfOk result (λ p. part_view p ≡ PartData.expression_part (OperandNodes.node action (parts_view parts.old))) }
{
    Ok(Part::Expression(operand_node(alloc, action, parts)?))
}

#[inline(never)]
fn expression_part<'a>(
    alloc: Global,
    action: ExpressionAction,
    parts: &mut Parts<'a>,
) -> Result<Part<'a>, AllocError>
    requires { Fits (ExpressionNodes.kinds action) (parts_view parts.now) }
    ensures { IfOk result (λ p. part_view p ≡ PartData.expression_part (ExpressionNodes.node action (parts_view parts.old))) }
{
    Ok(Part::Expression(expression_node(alloc, action, parts)?))
}

#[inline(never)]
fn specifier_part<'a>(
    alloc: Global,
    action: SpecifierAction,
    parts: &mut Parts<'a>,
) -> Result<Part<'a>, AllocError>
    requires { Fits (SpecifierNodes.kinds action) (parts_view parts.now) }
    ensures { IfOk result (λ p. part_view p ≡ PartData.declaration_part (SpecifierNodes.node action (parts_view parts.old))) }
{
    Ok(Part::Declaration(specifier_node(alloc, action, parts)?))
}

#[inline(never)]
fn declarator_part<'a>(
    alloc: Global,
    action: DeclaratorAction,
    parts: &mut Parts<'a>,
) -> Result<Part<'a>, AllocError>
    requires { Fits (DeclaratorNodes.kinds action) (parts_view parts.now) }
    ensures { IfOk result (λ p. part_view p ≡ PartData.declaration_part (DeclaratorNodes.node action (parts_view parts.old))) }
{
    Ok(Part::Declaration(declarator_node(alloc, action, parts)?))
}

#[inline(never)]
fn external_part<'a>(
    alloc: Global,
    action: ExternalAction,
    parts: &mut Parts<'a>,
) -> Result<Part<'a>, AllocError>
    requires { Fits (ExternalNodes.kinds action) (parts_view parts.now) }
    ensures { IfOk result (λ p. part_view p ≡ PartData.external_part (ExternalNodes.node action (parts_view parts.old))) }
{
    Ok(Part::External(external_node(alloc, action, parts)?))
}

#[inline(never)]
fn statement_part<'a>(
    alloc: Global,
    action: StatementAction,
    parts: &mut Parts<'a>,
) -> Result<Part<'a>, AllocError>
    requires { Fits (StatementNodes.kinds action) (parts_view parts.now) }
    ensures { IfOk result (λ p. part_view p ≡ PartData.statement_part (StatementNodes.node action (parts_view parts.old))) }
{
    Ok(Part::Statement(statement_node(alloc, action, parts)?))
}

#[inline(never)]
fn switch_part<'a>(
    alloc: Global,
    action: SwitchAction,
    parts: &mut Parts<'a>,
) -> Result<Part<'a>, AllocError>
    requires { Fits (SwitchNodes.kinds action) (parts_view parts.now) }
    ensures { IfOk result (λ p. part_view p ≡ PartData.statement_part (SwitchNodes.node action (parts_view parts.old))) }
{
    Ok(Part::Statement(switch_node(alloc, action, parts)?))
}
