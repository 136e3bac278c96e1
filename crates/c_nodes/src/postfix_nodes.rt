ghost use Rattle.std.specs.Prelude.{◌≡◌, ◌∷◌, map, IfOk};
ghost use Rattle.c_rawtree.specs.Expressions;
ghost use Rattle.c_rawtree.specs.Views;
ghost use Rattle.c_rawtree.specs.Views.{expression_view, postfix_view};
ghost use Rattle.c_parts.specs.PartData;
ghost use Rattle.c_parts.specs.PartViews.{leaf_view, operand_view, expression_part_view};
ghost use Rattle.c_nodes.specs.OperandNodes.{postfixed};
ghost use Rattle.c_nodes.specs.ExpressionNodes.{bracketed};

use crate::operand_nodes::postfixed;
use c_parts::{Bracketed, Chain, ExpressionPart, Leaf, Operand};
use c_rawtree::{Expression, Postfix};
use std::alloc::{AllocError, Global};

pub(crate) fn postfixes(
    one: Postfix,
    mut postfixes: Chain<Postfix>,
) -> Result<ExpressionPart, AllocError>
    ensures { IfOk result (λ part. expression_part_view part ≡ PartData.postfixes ((postfix_view one) ∷ (map postfix_view postfixes))) }
{
    postfixes.put_front(one)?;
    Ok(ExpressionPart::Postfixes(postfixes))
}

pub(crate) fn group(
    alloc: Global,
    inner: Operand,
    _: Leaf,
    postfixes: Chain<Postfix>,
) -> Result<ExpressionPart, AllocError>
    ensures { IfOk result (λ part. expression_part_view part ≡ PartData.bracketed (PartData.bracketed_operand (postfixed (bracketed (operand_view inner)) (map postfix_view postfixes)))) }
{
    Ok(ExpressionPart::Bracketed(Bracketed::Operand(postfixed(
        alloc,
        bracketed(inner),
        postfixes,
    )?)))
}

pub(crate) fn index(bracket: Leaf, index: Operand) -> Postfix
    ensures { postfix_view result ≡ Expressions.index (leaf_view bracket.entry).place (operand_view index).expression }
{
    Postfix::Index {
        place: bracket.place,
        index: index.expression,
    }
}

pub(crate) fn call(bracket: Leaf, arguments: Chain<Expression>) -> Postfix
    ensures { postfix_view result ≡ Expressions.call (leaf_view bracket.entry).place (Views.expressions_of (map expression_view arguments)) }
{
    Postfix::Call {
        place: bracket.place,
        arguments: arguments.into_vec(),
    }
}

pub(crate) fn argument(
    argument: Operand,
    mut arguments: Chain<Expression>,
) -> Result<ExpressionPart, AllocError>
    ensures { IfOk result (λ part. expression_part_view part ≡ PartData.arguments (((operand_view argument).expression) ∷ (map expression_view arguments))) }
{
    arguments.put_front(Box::into_inner(argument.expression))?;
    Ok(ExpressionPart::Arguments(arguments))
}

pub(crate) fn member(alloc: Global, sign: Leaf, member: Leaf) -> Result<ExpressionPart, AllocError>
    ensures { IfOk result (λ part. expression_part_view part ≡ PartData.postfix (Expressions.member (leaf_view sign.entry).place (leaf_view member.entry))) }
{
    Ok(ExpressionPart::Postfix(Postfix::Member {
        place: sign.place,
        member: member.word(alloc)?,
    }))
}

pub(crate) fn arrow(alloc: Global, sign: Leaf, member: Leaf) -> Result<ExpressionPart, AllocError>
    ensures { IfOk result (λ part. expression_part_view part ≡ PartData.postfix (Expressions.arrow (leaf_view sign.entry).place (leaf_view member.entry))) }
{
    Ok(ExpressionPart::Postfix(Postfix::Arrow {
        place: sign.place,
        member: member.word(alloc)?,
    }))
}

/// An expression in brackets.
fn bracketed(inner: Operand) -> Operand
    ensures { operand_view result ≡ bracketed (operand_view inner) }
{
    Operand {
        expression: inner.expression,
        bracketed: true,
    }
}
