ghost use Rattle.std.specs.Prelude.{◌≡◌, map};
ghost use Rattle.std.specs.Option.{option_map};
ghost use Rattle.c_rawtree.specs.Views.{boxed_view, expression_view, operation_view, postfix_view, type_name_view};
ghost use Rattle.c_parts.specs.Kinds;
ghost use Rattle.c_parts.specs.PartData;
ghost use Rattle.c_parts.specs.PartViews.{expression_part_view, bracketed_view, branches_view, operand_view, sizeof_operand_view};
ghost use Rattle.c_parts.specs.Reading.{kind_of, operand_of, optional_expression_of, infix_operator_of, operations_of, prefix_operator_of, postfix_of, postfixes_of, arguments_of, type_name_of, branches_of, sizeof_operand_of, bracketed_of, assignment_sign_of, step_sign_of};

use crate::chain::Chain;
use c_rawtree::{
    AssignmentOperator, BinaryOperator, Expression, Operation, Postfix, Step, TypeName,
    UnaryOperator,
};
use misra_base::Place;

/// An expression, and whether it is all in brackets.
#[derive(Drop)]
pub struct Operand {
    pub expression: Box<Expression>,
    pub bracketed: bool,
}

/// An operator between operands.
#[derive(Clone, Copy)]
pub struct InfixOperator {
    pub place: Place,
    pub operator: BinaryOperator,
}

/// An operator before its operand.
#[derive(Clone, Copy)]
pub struct PrefixOperator {
    pub place: Place,
    pub operator: UnaryOperator,
}

/// What stands behind a condition (C11 6.5.15).
#[derive(Drop)]
pub struct Branches {
    /// The place of the `?`.
    pub question: Place,
    pub then: Box<Expression>,
    pub otherwise: Box<Expression>,
}

/// What `sizeof` is of (C11 6.5.3.4).
#[derive(Drop)]
pub enum SizeofOperand {
    Type(TypeName),
    Expression(Box<Expression>),
}

/// What an opening bracket begins.
#[derive(Drop)]
pub enum Bracketed {
    /// A type name, and the operand behind it (C11 6.5.4).
    Cast {
        type_name: TypeName,
        operand: Box<Expression>,
    },
    /// An expression in brackets, with what stands behind it.
    Operand(Operand),
}

/// `=` or an operator with it, at its place.
#[derive(Clone, Copy)]
pub struct AssignmentSign {
    pub place: Place,
    pub operator: AssignmentOperator,
}

/// `++` or `--`, at its place.
#[derive(Clone, Copy)]
pub struct StepSign {
    pub place: Place,
    pub step: Step,
}

/// A part that is an expression or stands in one (C11 6.5).
pub enum ExpressionPart {
    /// An expression.
    Operand(Operand),
    /// An expression, or none.
    OptionalExpression(Option<Box<Expression>>),
    /// An operator between operands.
    InfixOperator(InfixOperator),
    /// Operators with their right operands.
    Operations(Chain<Operation>),
    /// An operator before its operand.
    PrefixOperator(PrefixOperator),
    /// What stands behind an operand.
    Postfix(Postfix),
    /// All that stands behind an operand.
    Postfixes(Chain<Postfix>),
    /// The arguments of a call.
    Arguments(Chain<Expression>),
    /// A type name.
    TypeName(TypeName),
    /// What stands behind a condition: `? then : otherwise`, or nothing.
    Branches(Option<Branches>),
    /// What `sizeof` is of.
    SizeofOperand(SizeofOperand),
    /// What a bracket begins.
    Bracketed(Bracketed),
    /// `=` or an operator with it.
    AssignmentSign(AssignmentSign),
    /// `++` or `--`.
    StepSign(StepSign),
}

impl Drop for ExpressionPart {
    fn drop(self) {
        match self {
            ExpressionPart::Operand(_)
            | ExpressionPart::OptionalExpression(_)
            | ExpressionPart::InfixOperator(_)
            | ExpressionPart::Operations(_)
            | ExpressionPart::PrefixOperator(_)
            | ExpressionPart::Postfix(_)
            | ExpressionPart::Postfixes(_)
            | ExpressionPart::Arguments(_)
            | ExpressionPart::TypeName(_)
            | ExpressionPart::Branches(_)
            | ExpressionPart::SizeofOperand(_)
            | ExpressionPart::Bracketed(_)
            | ExpressionPart::AssignmentSign(_)
            | ExpressionPart::StepSign(_) => {}
        }
    }
}

impl ExpressionPart {
    /// Its content: an expression.
    pub fn operand(self) -> Operand
        requires { kind_of (PartData.expression_part (expression_part_view self)) ≡ Kinds.operand }
        ensures { operand_view result ≡ operand_of (PartData.expression_part (expression_part_view self)) }
    {
        match self {
            ExpressionPart::Operand(part) => part,
            _ => unreachable!(),
        }
    }

    /// Its content: an expression, or none.
    pub fn optional_expression(self) -> Option<Box<Expression>>
        requires { kind_of (PartData.expression_part (expression_part_view self)) ≡ Kinds.optional_expression }
        ensures { option_map boxed_view result ≡ optional_expression_of (PartData.expression_part (expression_part_view self)) }
    {
        match self {
            ExpressionPart::OptionalExpression(part) => part,
            _ => unreachable!(),
        }
    }

    /// Its content: an operator between operands.
    pub fn infix_operator(self) -> InfixOperator
        requires { kind_of (PartData.expression_part (expression_part_view self)) ≡ Kinds.infix_operator }
        ensures { result ≡ infix_operator_of (PartData.expression_part (expression_part_view self)) }
    {
        match self {
            ExpressionPart::InfixOperator(operator) => operator,
            _ => unreachable!(),
        }
    }

    /// Its content: operators with their right operands.
    pub fn operations(self) -> Chain<Operation>
        requires { kind_of (PartData.expression_part (expression_part_view self)) ≡ Kinds.operations }
        ensures { map operation_view result ≡ operations_of (PartData.expression_part (expression_part_view self)) }
    {
        match self {
            ExpressionPart::Operations(part) => part,
            _ => unreachable!(),
        }
    }

    /// Its content: an operator before its operand.
    pub fn prefix_operator(self) -> PrefixOperator
        requires { kind_of (PartData.expression_part (expression_part_view self)) ≡ Kinds.prefix_operator }
        ensures { result ≡ prefix_operator_of (PartData.expression_part (expression_part_view self)) }
    {
        match self {
            ExpressionPart::PrefixOperator(operator) => operator,
            _ => unreachable!(),
        }
    }

    /// Its content: what stands behind an operand.
    pub fn postfix(self) -> Postfix
        requires { kind_of (PartData.expression_part (expression_part_view self)) ≡ Kinds.postfix }
        ensures { postfix_view result ≡ postfix_of (PartData.expression_part (expression_part_view self)) }
    {
        match self {
            ExpressionPart::Postfix(part) => part,
            _ => unreachable!(),
        }
    }

    /// Its content: all that stands behind an operand.
    pub fn postfixes(self) -> Chain<Postfix>
        requires { kind_of (PartData.expression_part (expression_part_view self)) ≡ Kinds.postfixes }
        ensures { map postfix_view result ≡ postfixes_of (PartData.expression_part (expression_part_view self)) }
    {
        match self {
            ExpressionPart::Postfixes(part) => part,
            _ => unreachable!(),
        }
    }

    /// Its content: the arguments of a call.
    pub fn arguments(self) -> Chain<Expression>
        requires { kind_of (PartData.expression_part (expression_part_view self)) ≡ Kinds.arguments }
        ensures { map expression_view result ≡ arguments_of (PartData.expression_part (expression_part_view self)) }
    {
        match self {
            ExpressionPart::Arguments(part) => part,
            _ => unreachable!(),
        }
    }

    /// Its content: a type name.
    pub fn type_name(self) -> TypeName
        requires { kind_of (PartData.expression_part (expression_part_view self)) ≡ Kinds.type_name }
        ensures { type_name_view result ≡ type_name_of (PartData.expression_part (expression_part_view self)) }
    {
        match self {
            ExpressionPart::TypeName(part) => part,
            _ => unreachable!(),
        }
    }

    /// Its content: what stands behind a condition: `? then : otherwise`, or nothing.
    pub fn branches(self) -> Option<Branches>
        requires { kind_of (PartData.expression_part (expression_part_view self)) ≡ Kinds.branches }
        ensures { option_map branches_view result ≡ branches_of (PartData.expression_part (expression_part_view self)) }
    {
        match self {
            ExpressionPart::Branches(part) => part,
            _ => unreachable!(),
        }
    }

    /// Its content: what `sizeof` is of.
    pub fn sizeof_operand(self) -> SizeofOperand
        requires { kind_of (PartData.expression_part (expression_part_view self)) ≡ Kinds.sizeof_operand }
        ensures { sizeof_operand_view result ≡ sizeof_operand_of (PartData.expression_part (expression_part_view self)) }
    {
        match self {
            ExpressionPart::SizeofOperand(part) => part,
            _ => unreachable!(),
        }
    }

    /// Its content: what a bracket begins.
    pub fn bracketed(self) -> Bracketed
        requires { kind_of (PartData.expression_part (expression_part_view self)) ≡ Kinds.bracketed }
        ensures { bracketed_view result ≡ bracketed_of (PartData.expression_part (expression_part_view self)) }
    {
        match self {
            ExpressionPart::Bracketed(part) => part,
            _ => unreachable!(),
        }
    }

    /// Its content: `=` or an operator with it.
    pub fn assignment_sign(self) -> AssignmentSign
        requires { kind_of (PartData.expression_part (expression_part_view self)) ≡ Kinds.assignment_sign }
        ensures { result ≡ assignment_sign_of (PartData.expression_part (expression_part_view self)) }
    {
        match self {
            ExpressionPart::AssignmentSign(sign) => sign,
            _ => unreachable!(),
        }
    }

    /// Its content: `++` or `--`.
    pub fn step_sign(self) -> StepSign
        requires { kind_of (PartData.expression_part (expression_part_view self)) ≡ Kinds.step_sign }
        ensures { result ≡ step_sign_of (PartData.expression_part (expression_part_view self)) }
    {
        match self {
            ExpressionPart::StepSign(sign) => sign,
            _ => unreachable!(),
        }
    }
}
