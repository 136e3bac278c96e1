use crate::declaration::{put_declaration, put_pointers, put_specifiers};
use crate::expression::{MULTIPLICATIVE, PRIMARY, put_expression, put_operand};
use crate::operator::{assignment_token, step_token};
use crate::token::{put, put_word};
use c_rawtree::{
    Block, Body, CaseLabel, Clause, Expression, ForStart, If, Item, Leave, Otherwise, Simple,
    Statement,
};
use std::alloc::AllocError;

#[cycle(statements)]
pub(crate) fn put_block(block: &Block, out: &mut Vec<u8>) -> Result<(), AllocError> {
    put(out, b"{")?;
    for item in &block.items {
        put_item(item, out)?;
    }
    put(out, b"}")
}

#[cycle(statements)]
fn put_item(item: &Item, out: &mut Vec<u8>) -> Result<(), AllocError> {
    match item {
        Item::Declaration(declaration) => put_declaration(declaration, out),
        Item::Statement(statement) => put_statement(statement, out),
        Item::Leave(leave) => put_leave(leave, out),
    }
}

#[cycle(statements)]
fn put_statement(statement: &Statement, out: &mut Vec<u8>) -> Result<(), AllocError> {
    match statement {
        Statement::Block(block) => put_block(block, out),
        Statement::If(inner) => put_if(inner, out),
        Statement::While {
            condition,
            body,
            ..
        } => {
            put_condition(b"while", condition, out)?;
            put_block(body, out)
        }
        Statement::DoWhile {
            body,
            condition,
            ..
        } => {
            put(out, b"do")?;
            put_block(body, out)?;
            put_condition(b"while", condition, out)?;
            put(out, b";")
        }
        Statement::For {
            start,
            condition,
            step,
            body,
            ..
        } => {
            put_for(start, condition, step, out)?;
            put_block(body, out)
        }
        Statement::Switch {
            subject,
            clauses,
            default,
            ..
        } => {
            put_condition(b"switch", subject, out)?;
            put(out, b"{")?;
            for clause in clauses {
                put_clause(clause, out)?;
            }
            if let Some(body) = default {
                put(out, b"default :")?;
                put_body(body, out)?;
            }
            put(out, b"}")
        }
        Statement::Continue { .. } => put(out, b"continue ;"),
        Statement::Simple(simple) => {
            put_simple(simple, out)?;
            put(out, b";")
        }
        Statement::Empty { .. } => put(out, b";"),
    }
}

fn put_condition(
    keyword: &[u8],
    condition: &Expression,
    out: &mut Vec<u8>,
) -> Result<(), AllocError> {
    put(out, keyword)?;
    put(out, b"(")?;
    put_expression(condition, out)?;
    put(out, b")")
}

fn put_for(
    start: &Option<ForStart>,
    condition: &Option<Box<Expression>>,
    step: &Option<Simple>,
    out: &mut Vec<u8>,
) -> Result<(), AllocError> {
    put(out, b"for (")?;
    if let Some(start) = start {
        put_for_start(start, out)?;
    }
    put(out, b";")?;
    if let Some(condition) = condition {
        put_expression(condition, out)?;
    }
    put(out, b";")?;
    if let Some(step) = step {
        put_simple(step, out)?;
    }
    put(out, b")")
}

fn put_for_start(start: &ForStart, out: &mut Vec<u8>) -> Result<(), AllocError> {
    match start {
        ForStart::Declaration {
            specifiers,
            pointers,
            name,
            value,
            ..
        } => {
            put_specifiers(specifiers, out)?;
            put_pointers(pointers, out)?;
            put_word(out, name)?;
            put(out, b"=")?;
            put_expression(value, out)
        }
        ForStart::Simple(simple) => put_simple(simple, out),
    }
}

#[cycle(statements)]
fn put_if(inner: &If, out: &mut Vec<u8>) -> Result<(), AllocError> {
    put_condition(b"if", &inner.condition, out)?;
    put_block(&inner.then, out)?;
    match &inner.otherwise {
        None => Ok(()),
        Some(Otherwise::Block(block)) => {
            put(out, b"else")?;
            put_block(block, out)
        }
        Some(Otherwise::If(inner)) => {
            put(out, b"else")?;
            put_if(inner, out)
        }
    }
}

#[cycle(statements)]
fn put_clause(clause: &Clause, out: &mut Vec<u8>) -> Result<(), AllocError> {
    for label in &clause.labels {
        put_label(label, out)?;
    }
    put_body(&clause.body, out)
}

fn put_label(label: &CaseLabel, out: &mut Vec<u8>) -> Result<(), AllocError> {
    put(out, b"case")?;
    put_expression(&label.value, out)?;
    put(out, b":")
}

#[cycle(statements)]
fn put_body(body: &Body, out: &mut Vec<u8>) -> Result<(), AllocError> {
    for statement in &body.statements {
        put_statement(statement, out)?;
    }
    put_leave(&body.leave, out)
}

fn put_leave(leave: &Leave, out: &mut Vec<u8>) -> Result<(), AllocError> {
    match leave {
        Leave::Break { .. } => put(out, b"break ;"),
        Leave::Return { value, .. } => {
            put(out, b"return")?;
            if let Some(value) = value {
                put_expression(value, out)?;
            }
            put(out, b";")
        }
    }
}

fn put_simple(simple: &Simple, out: &mut Vec<u8>) -> Result<(), AllocError> {
    match simple {
        Simple::Expression(expression) => put_expression(expression, out),
        Simple::Assignment {
            target,
            operator,
            value,
            ..
        } => {
            put_expression(target, out)?;
            put(out, assignment_token(*operator))?;
            put_expression(value, out)
        }
        Simple::Prefix { step, operand, .. } => {
            put(out, step_token(*step))?;
            put_operand(operand, MULTIPLICATIVE, out)
        }
        Simple::Postfix {
            operand,
            bracketed,
            step,
            ..
        } => {
            if *bracketed {
                put_operand(operand, PRIMARY, out)?;
            } else {
                put_expression(operand, out)?;
            }
            put(out, step_token(*step))
        }
    }
}
