use crate::declaration::{put_pointers, put_specifiers};
use crate::operator::{binary_token, unary_token};
use crate::token::{put, put_word};
use c_rawtree::{Expression, Operation, Postfix, TypeName};
use std::alloc::AllocError;

/// How tightly the operators bind that are no binary ones.
const CONDITIONAL: u8 = 0;

pub(crate) const MULTIPLICATIVE: u8 = 10;

const UNARY: u8 = 11;

const POSTFIX: u8 = 12;

pub(crate) const PRIMARY: u8 = 13;

/// How tightly an expression binds: least for `? :`, then as its operators, and most where it is one token.
fn binding(expression: &Expression) -> u8 {
    match expression {
        Expression::Conditional { .. } => CONDITIONAL,
        Expression::Binary { rest, .. } => match rest.first() {
            Some(operation) => binary_token(operation.operator).1,
            None => CONDITIONAL,
        },
        Expression::Unary { .. }
        | Expression::Cast { .. }
        | Expression::SizeofExpression { .. }
        | Expression::SizeofType { .. } => UNARY,
        Expression::Postfix { .. } => POSTFIX,
        Expression::Identifier(_) | Expression::Constant(_) => PRIMARY,
    }
}

/// Writes an expression, in brackets unless it binds more tightly than this.
#[cycle(printing)]
pub(crate) fn put_operand(
    expression: &Expression,
    than: u8,
    out: &mut Vec<u8>,
) -> Result<(), AllocError> {
    if binding(expression) > than {
        return put_expression(expression, out);
    }
    put(out, b"(")?;
    put_expression(expression, out)?;
    put(out, b")")
}

/// Writes an expression without brackets round it.
#[cycle(printing)]
pub(crate) fn put_expression(expression: &Expression, out: &mut Vec<u8>) -> Result<(), AllocError> {
    match expression {
        Expression::Identifier(word) | Expression::Constant(word) => put_word(out, word),
        Expression::Binary { first, rest } => {
            put_operand(first, binding(expression), out)?;
            for operation in rest {
                put_operation(operation, out)?;
            }
            Ok(())
        }
        Expression::Conditional {
            condition,
            then,
            otherwise,
            ..
        } => {
            put_operand(condition, CONDITIONAL, out)?;
            put(out, b"?")?;
            put_expression(then, out)?;
            put(out, b":")?;
            put_expression(otherwise, out)
        }
        Expression::Unary {
            operator,
            operand,
            ..
        } => {
            put(out, unary_token(*operator))?;
            put_operand(operand, MULTIPLICATIVE, out)
        }
        Expression::SizeofExpression { operand, .. } => {
            put(out, b"sizeof (")?;
            put_expression(operand, out)?;
            put(out, b")")
        }
        Expression::SizeofType { type_name, .. } => {
            put(out, b"sizeof")?;
            put_type_name(type_name, out)
        }
        Expression::Cast {
            type_name,
            operand,
            ..
        } => {
            put_type_name(type_name, out)?;
            put_operand(operand, MULTIPLICATIVE, out)
        }
        Expression::Postfix { operand, postfixes } => {
            put_operand(operand, POSTFIX, out)?;
            for postfix in postfixes {
                put_postfix(postfix, out)?;
            }
            Ok(())
        }
    }
}

#[cycle(printing)]
fn put_operation(operation: &Operation, out: &mut Vec<u8>) -> Result<(), AllocError> {
    let (token, binding) = binary_token(operation.operator);
    put(out, token)?;
    put_operand(&operation.operand, binding, out)
}

#[cycle(printing)]
fn put_type_name(type_name: &TypeName, out: &mut Vec<u8>) -> Result<(), AllocError> {
    put(out, b"(")?;
    put_specifiers(&type_name.specifiers, out)?;
    put_pointers(&type_name.pointers, out)?;
    put(out, b")")
}

#[cycle(printing)]
fn put_postfix(postfix: &Postfix, out: &mut Vec<u8>) -> Result<(), AllocError> {
    match postfix {
        Postfix::Index { index, .. } => {
            put(out, b"[")?;
            put_expression(index, out)?;
            put(out, b"]")
        }
        Postfix::Call { arguments, .. } => {
            put(out, b"(")?;
            put_arguments(arguments, out)?;
            put(out, b")")
        }
        Postfix::Member { member, .. } => {
            put(out, b".")?;
            put_word(out, member)
        }
        Postfix::Arrow { member, .. } => {
            put(out, b"->")?;
            put_word(out, member)
        }
    }
}

#[cycle(printing)]
fn put_arguments(arguments: &[Expression], out: &mut Vec<u8>) -> Result<(), AllocError> {
    let mut first = true;
    for argument in arguments {
        if !first {
            put(out, b",")?;
        }
        first = false;
        put_expression(argument, out)?;
    }
    Ok(())
}
