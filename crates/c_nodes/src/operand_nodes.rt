ghost use Rattle.std.specs.Prelude.{◌≡◌, map, IfOk};
ghost use Rattle.std.specs.Option.{option_map};
ghost use Rattle.c_rawtree.specs.Expressions;
ghost use Rattle.c_rawtree.specs.Views.{expression_view, operation_view, postfix_view};
ghost use Rattle.c_parts.specs.PartData;
ghost use Rattle.c_parts.specs.PartViews.{leaf_view, operand_view, branches_view, expression_part_view, parts_view};
ghost use Rattle.c_parts.specs.Reading.{Fits};
ghost use Rattle.c_nodes.specs.OperandNodes.{kinds, plain, binary, conditional, postfixed, node};

use c_parts::{Branches, Chain, ExpressionPart, Leaf, Operand, Parts};
use c_rawtree::{Expression, Operation, Postfix};
use std::alloc::{AllocError, Global};

/// What a production that an operand goes through makes of its parts. These are by far the most frequent actions, so
/// that they are apart from those of other expressions.
#[derive(Clone, Copy)]
pub enum OperandAction {
    /// An identifier, or a name of the library.
    Identifier,
    /// A number or a character.
    Constant,
    /// No more operations.
    NoOperations,
    /// `operand { operator operand }` (C11 6.5.5 to 6.5.14).
    Binary,
    /// `condition [ ? then : otherwise ]` (C11 6.5.15).
    Conditional,
    /// No `?`.
    NoBranches,
    /// No more postfixes.
    NoPostfixes,
    /// `operand { postfix }` (C11 6.5.2).
    Postfixed,
}

/// What the production makes of the parts.
pub(crate) fn operand_node(
    alloc: Global,
    action: OperandAction,
    parts: &mut Parts,
) -> Result<ExpressionPart, AllocError>
    requires { Fits (kinds action) (parts_view parts.now) }
    ensures { IfOk result (λ p. expression_part_view p ≡ node action (parts_view parts.old)) }
{
    match action {
        OperandAction::Identifier => identifier(alloc, parts.leaf()),
        OperandAction::Constant => constant(alloc, parts.leaf()),
        OperandAction::NoOperations => Ok(ExpressionPart::Operations(Chain::new(alloc))),
        OperandAction::Binary => binary_operand(
            alloc,
            parts.expression_part().operand(),
            parts.expression_part().operations(),
        ),
        OperandAction::Conditional => conditional_operand(
            alloc,
            parts.expression_part().operand(),
            parts.expression_part().branches(),
        ),
        OperandAction::NoBranches => Ok(ExpressionPart::Branches(None)),
        OperandAction::NoPostfixes => Ok(ExpressionPart::Postfixes(Chain::new(alloc))),
        OperandAction::Postfixed => postfixed_operand(
            alloc,
            parts.expression_part().operand(),
            parts.expression_part().postfixes(),
        ),
    }
}

fn identifier(alloc: Global, name: Leaf) -> Result<ExpressionPart, AllocError>
    ensures { IfOk result (λ part. expression_part_view part ≡ PartData.operand (plain (Expressions.identifier (leaf_view name.entry)))) }
{
    plain(alloc, Expression::Identifier(name.word(alloc)?))
}

fn constant(alloc: Global, literal: Leaf) -> Result<ExpressionPart, AllocError>
    ensures { IfOk result (λ part. expression_part_view part ≡ PartData.operand (plain (Expressions.constant (leaf_view literal.entry)))) }
{
    plain(alloc, Expression::Constant(literal.word(alloc)?))
}

/// An operand with operations behind it, or itself where there are none.
fn binary_operand(
    alloc: Global,
    first: Operand,
    operations: Chain<Operation>,
) -> Result<ExpressionPart, AllocError>
    ensures { IfOk result (λ part. expression_part_view part ≡ PartData.operand (binary (operand_view first) (map operation_view operations))) }
{
    if operations.is_empty() {
        return Ok(ExpressionPart::Operand(first));
    }
    plain(
        alloc,
        Expression::Binary {
            first: first.expression,
            rest: operations.into_vec(),
        },
    )
}

/// A condition with its branches, or itself where there are none.
fn conditional_operand(
    alloc: Global,
    condition: Operand,
    branches: Option<Branches>,
) -> Result<ExpressionPart, AllocError>
    ensures { IfOk result (λ part. expression_part_view part ≡ PartData.operand (conditional (operand_view condition) (option_map branches_view branches))) }
{
    match branches {
        None => Ok(ExpressionPart::Operand(condition)),
        Some(branches) => plain(
            alloc,
            Expression::Conditional {
                condition: condition.expression,
                question: branches.question,
                then: branches.then,
                otherwise: branches.otherwise,
            },
        ),
    }
}

/// An expression that is not in brackets, as a part.
pub(crate) fn plain(alloc: Global, expression: Expression) -> Result<ExpressionPart, AllocError>
    ensures { IfOk result (λ part. expression_part_view part ≡ PartData.operand (plain (expression_view expression))) }
{
    Ok(ExpressionPart::Operand(operand(alloc, expression)?))
}

/// An expression that is not in brackets.
fn operand(alloc: Global, expression: Expression) -> Result<Operand, AllocError>
    ensures { IfOk result (λ o. operand_view o ≡ plain (expression_view expression)) }
{
    Ok(Operand {
        expression: Box::new(alloc, expression)?,
        bracketed: false,
    })
}

fn postfixed_operand(
    alloc: Global,
    inner: Operand,
    postfixes: Chain<Postfix>,
) -> Result<ExpressionPart, AllocError>
    ensures { IfOk result (λ part. expression_part_view part ≡ PartData.operand (postfixed (operand_view inner) (map postfix_view postfixes))) }
{
    Ok(ExpressionPart::Operand(postfixed(alloc, inner, postfixes)?))
}

/// An operand with postfixes behind it, or itself where there are none.
pub(crate) fn postfixed(
    alloc: Global,
    inner: Operand,
    postfixes: Chain<Postfix>,
) -> Result<Operand, AllocError>
    ensures { IfOk result (λ o. operand_view o ≡ postfixed (operand_view inner) (map postfix_view postfixes)) }
{
    if postfixes.is_empty() {
        return Ok(inner);
    }
    operand(
        alloc,
        Expression::Postfix {
            operand: inner.expression,
            postfixes: postfixes.into_vec(),
        },
    )
}
