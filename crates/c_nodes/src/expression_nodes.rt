ghost use Rattle.std.specs.Prelude.{◌≡◌, ◌∷◌, map, IfOk, Some};
ghost use Rattle.c_rawtree.specs.Expressions;
ghost use Rattle.c_rawtree.specs.Views;
ghost use Rattle.c_rawtree.specs.Views.{pointers_view, operation_view, type_name_view, specifier_view};
ghost use Rattle.c_parts.specs.PartData;
ghost use Rattle.c_parts.specs.PartViews.{leaf_view, operand_view, branches_view, sizeof_operand_view, bracketed_view, expression_part_view, parts_view};
ghost use Rattle.c_parts.specs.Reading.{Fits};
ghost use Rattle.c_nodes.specs.OperandNodes.{plain};
ghost use Rattle.c_nodes.specs.declared.expression_nodes.ExpressionAction.TheVariants as ActionOf;
ghost use Rattle.c_nodes.specs.ExpressionNodes.{kinds, sizeof, behind_bracket, node};

use crate::operand_nodes::plain;
use crate::postfix_nodes::{argument, arrow, call, group, index, member, postfixes};
use c_parts::{
    AssignmentSign, Bracketed, Branches, Chain, ExpressionPart, InfixOperator, Leaf, Operand,
    Parts, PrefixOperator, SizeofOperand, StepSign,
};
use c_rawtree::{
    AssignmentOperator, BinaryOperator, Expression, Operation, Pointer, Specifier, Step, TypeName,
    UnaryOperator,
};
use std::alloc::{AllocError, Global};

/// What a production of expressions makes of its parts.
#[derive(Clone, Copy)]
pub enum ExpressionAction {
    /// An operator between operands, which is a token.
    Infix(BinaryOperator),
    /// An operator before its operand, which is a token.
    Prefix(UnaryOperator),
    /// `operator operand`, and operations behind it.
    Operation(BinaryOperator),
    /// The same, where the operator was one of several.
    SignedOperation,
    /// `? then : otherwise`
    Branches,
    /// `operator operand` (C11 6.5.3).
    Unary,
    /// `sizeof ( .. )` (C11 6.5.3.4).
    Sizeof,
    /// A type name behind `sizeof (`.
    SizeofType,
    /// An expression behind `sizeof (`.
    SizeofExpression,
    /// `( .. )` and what stands behind it.
    Bracket,
    /// `type ) operand` (C11 6.5.4).
    Cast,
    /// `expression ) { postfix }`
    Group,
    /// One postfix, and those behind it.
    Postfixes,
    /// `specifiers pointers` (C11 6.7.7).
    TypeName,
    /// `[ index ]` (C11 6.5.2.1).
    Index,
    /// `( arguments )` (C11 6.5.2.2).
    Call,
    /// The first argument of a call, and the others.
    FirstArgument,
    /// `, argument`, and those behind it.
    Argument,
    /// No more arguments.
    NoArguments,
    /// `. member` (C11 6.5.2.3).
    Member,
    /// `-> member` (C11 6.5.2.3).
    Arrow,
    /// An expression that might be missing.
    SomeExpression,
    /// `= expression`, which might be missing.
    InitialExpression,
    /// No expression.
    NoExpression,
    /// `=` or an operator with it, which is a token.
    AssignmentSign(AssignmentOperator),
    /// `++` or `--`, which is a token.
    StepSign(Step),
}

/// What the production makes of the parts.
pub(crate) fn expression_node(
    alloc: Global,
    action: ExpressionAction,
    parts: &mut Parts,
) -> Result<ExpressionPart, AllocError>
    requires { Fits (kinds action) (parts_view parts.now) }
    ensures { IfOk result (λ p. expression_part_view p ≡ node action (parts_view parts.old)) }
{
    match action {
        ExpressionAction::Infix(operator) => Ok(ExpressionPart::InfixOperator(InfixOperator {
            place: parts.leaf().place,
            operator,
        })),
        ExpressionAction::Prefix(operator) => Ok(ExpressionPart::PrefixOperator(PrefixOperator {
            place: parts.leaf().place,
            operator,
        })),
        ExpressionAction::Operation(operator) => operation(
            InfixOperator {
                place: parts.leaf().place,
                operator,
            },
            parts.expression_part().operand(),
            parts.expression_part().operations(),
        ),
        ExpressionAction::SignedOperation => operation(
            parts.expression_part().infix_operator(),
            parts.expression_part().operand(),
            parts.expression_part().operations(),
        ),
        ExpressionAction::Branches => Ok(ExpressionPart::Branches(Some(branches(parts)))),
        ExpressionAction::Unary => unary(
            alloc,
            parts.expression_part().prefix_operator(),
            parts.expression_part().operand(),
        ),
        ExpressionAction::Sizeof => sizeof_operand(
            alloc,
            parts.leaf(),
            parts.leaf(),
            parts.expression_part().sizeof_operand(),
        ),
        ExpressionAction::SizeofType => Ok(ExpressionPart::SizeofOperand(SizeofOperand::Type(
            parts.expression_part().type_name(),
        ))),
        ExpressionAction::SizeofExpression => Ok(ExpressionPart::SizeofOperand(
            SizeofOperand::Expression(parts.expression_part().operand().expression),
        )),
        ExpressionAction::Bracket => behind_bracket(
            alloc,
            parts.leaf(),
            parts.expression_part().bracketed(),
        ),
        ExpressionAction::Cast => Ok(ExpressionPart::Bracketed(cast(
            parts.expression_part().type_name(),
            parts.leaf(),
            parts.expression_part().operand(),
        ))),
        ExpressionAction::Group => group(
            alloc,
            parts.expression_part().operand(),
            parts.leaf(),
            parts.expression_part().postfixes(),
        ),
        ExpressionAction::Postfixes => postfixes(
            parts.expression_part().postfix(),
            parts.expression_part().postfixes(),
        ),
        ExpressionAction::TypeName => Ok(ExpressionPart::TypeName(type_name(
            parts.declaration_part().specifiers(),
            parts.declaration_part().pointers(),
        ))),
        ExpressionAction::Index => Ok(ExpressionPart::Postfix(index(
            parts.leaf(),
            parts.expression_part().operand(),
        ))),
        ExpressionAction::Call => Ok(ExpressionPart::Postfix(call(
            parts.leaf(),
            parts.expression_part().arguments(),
        ))),
        ExpressionAction::FirstArgument => argument(
            parts.expression_part().operand(),
            parts.expression_part().arguments(),
        ),
        ExpressionAction::Argument => {
            parts.leaf();
            argument(
                parts.expression_part().operand(),
                parts.expression_part().arguments(),
            )
        }
        ExpressionAction::NoArguments => Ok(ExpressionPart::Arguments(Chain::new(alloc))),
        ExpressionAction::Member => member(alloc, parts.leaf(), parts.leaf()),
        ExpressionAction::Arrow => arrow(alloc, parts.leaf(), parts.leaf()),
        ExpressionAction::SomeExpression => Ok(ExpressionPart::OptionalExpression(Some(
            parts.expression_part().operand().expression,
        ))),
        ExpressionAction::InitialExpression => {
            parts.leaf();
            Ok(ExpressionPart::OptionalExpression(Some(
                parts.expression_part().operand().expression,
            )))
        }
        ExpressionAction::NoExpression => Ok(ExpressionPart::OptionalExpression(None)),
        ExpressionAction::AssignmentSign(operator) => Ok(ExpressionPart::AssignmentSign(
            AssignmentSign {
                place: parts.leaf().place,
                operator,
            },
        )),
        ExpressionAction::StepSign(step) => Ok(ExpressionPart::StepSign(StepSign {
            place: parts.leaf().place,
            step,
        })),
    }
}

fn operation(
    sign: InfixOperator,
    right: Operand,
    mut operations: Chain<Operation>,
) -> Result<ExpressionPart, AllocError>
    ensures { IfOk result (λ part. expression_part_view part ≡ PartData.operations ((record { place = sign.place; operator = sign.operator; operand = (operand_view right).expression }) ∷ (map operation_view operations))) }
{
    operations.put_front(Operation {
        place: sign.place,
        operator: sign.operator,
        operand: right.expression,
    })?;
    Ok(ExpressionPart::Operations(operations))
}

fn unary(alloc: Global, sign: PrefixOperator, right: Operand) -> Result<ExpressionPart, AllocError>
    ensures { IfOk result (λ part. expression_part_view part ≡ PartData.operand (plain (Expressions.unary sign.place sign.operator (operand_view right).expression))) }
{
    plain(
        alloc,
        Expression::Unary {
            place: sign.place,
            operator: sign.operator,
            operand: right.expression,
        },
    )
}

fn type_name(specifiers: Chain<Specifier>, pointers: Chain<Pointer>) -> TypeName
    ensures { type_name_view result ≡ Expressions.type_name (Views.specifiers_of (map specifier_view specifiers)) (pointers_view pointers) }
{
    TypeName {
        specifiers: specifiers.into_vec(),
        pointers: pointers.into_vec(),
    }
}

fn branches(parts: &mut Parts) -> Branches
    requires { Fits (kinds ActionOf.Branches) (parts_view parts.now) }
    ensures { PartData.branches (Some (branches_view result)) ≡ node ActionOf.Branches (parts_view parts.old) }
{
    let question = parts.leaf().place;
    let then = parts.expression_part().operand().expression;
    parts.leaf();
    Branches {
        question,
        then,
        otherwise: parts.expression_part().operand().expression,
    }
}

/// `sizeof` of an expression or of a type.
fn sizeof_operand(
    alloc: Global,
    keyword: Leaf,
    _: Leaf,
    of: SizeofOperand,
) -> Result<ExpressionPart, AllocError>
    ensures { IfOk result (λ part. expression_part_view part ≡ PartData.operand (plain (sizeof (leaf_view keyword.entry).place (sizeof_operand_view of)))) }
{
    let place = keyword.place;
    match of {
        SizeofOperand::Type(type_name) => plain(alloc, Expression::SizeofType { place, type_name }),
        SizeofOperand::Expression(operand) => {
            plain(alloc, Expression::SizeofExpression { place, operand })
        }
    }
}

/// A cast, whose place is that of its bracket, or an expression in brackets.
fn behind_bracket(
    alloc: Global,
    bracket: Leaf,
    bracketed: Bracketed,
) -> Result<ExpressionPart, AllocError>
    ensures { IfOk result (λ part. expression_part_view part ≡ PartData.operand (behind_bracket (leaf_view bracket.entry).place (bracketed_view bracketed))) }
{
    match bracketed {
        Bracketed::Operand(inner) => Ok(ExpressionPart::Operand(inner)),
        Bracketed::Cast { type_name, operand } => plain(
            alloc,
            Expression::Cast {
                place: bracket.place,
                type_name,
                operand,
            },
        ),
    }
}

fn cast(type_name: TypeName, _: Leaf, right: Operand) -> Bracketed
    ensures { bracketed_view result ≡ PartData.bracketed_cast (type_name_view type_name) (operand_view right).expression }
{
    Bracketed::Cast {
        type_name,
        operand: right.expression,
    }
}
