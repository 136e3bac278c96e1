ghost use Rattle.std.specs.Prelude.{◌≡◌, ◌++◌, map, OnOk};
ghost use Rattle.std.specs.Option.{option_map};
ghost use Rattle.c_tree.specs.StatementViews.{leave_view, for_start_view, simple_view, case_label_view, statement_view, block_view, item_view, items_of, statements_of, clauses_of, body_view, clause_view, if_view, otherwise_view, maybe_body, maybe_otherwise};
ghost use Rattle.c_identifiers.specs.Statements.{each, leave_events, for_start_events, simple_events, labels_events, block_events, items_events, item_events, statement_events, statements_events, if_events, maybe_otherwise_events, otherwise_events, clauses_events, maybe_body_events, body_events};

use crate::declaration_events::{
    add_declaration_item, add_for_start, add_optional_expression, add_simple,
};
use crate::event::{Event, Usage};
use crate::expression_events::add_expression;
use crate::roles::Level;
use c_tree::{
    Block, Body, CaseLabel, Clause, ForStart, If, Item, Leave, Otherwise, Simple, Statement,
};
use std::alloc::{AllocError, Global};

fn add_leave(alloc: Global, events: &mut Vec<Event>, leave: &Leave) -> Result<(), AllocError>
    ensures { OnOk result (events.new.items ≡ events.old.items ++ leave_events (leave_view leave.now)) }
{
    match leave {
        Leave::Break { .. } => Ok(()),
        Leave::Return { value, .. } => add_optional_expression(alloc, events, value),
    }
}

fn add_optional_start(
    alloc: Global,
    events: &mut Vec<Event>,
    start: &Option<ForStart>,
) -> Result<(), AllocError>
    ensures { OnOk result (events.new.items ≡ events.old.items ++ each for_start_events (option_map for_start_view start.now)) }
{
    match start {
        Some(start) => add_for_start(alloc, events, start),
        None => Ok(()),
    }
}

fn add_optional_simple(
    alloc: Global,
    events: &mut Vec<Event>,
    simple: &Option<Simple>,
) -> Result<(), AllocError>
    ensures { OnOk result (events.new.items ≡ events.old.items ++ each simple_events (option_map simple_view simple.now)) }
{
    match simple {
        Some(simple) => add_simple(alloc, events, simple),
        None => Ok(()),
    }
}

fn add_labels(
    alloc: Global,
    events: &mut Vec<Event>,
    labels: &[CaseLabel],
) -> Result<(), AllocError>
    ensures { OnOk result (events.new.items ≡ events.old.items ++ labels_events (map case_label_view labels.now)) }
{
    for label in labels {
        add_expression(alloc, events, Usage::Evaluated, &label.value)?;
    }
    Ok(())
}

#[cycle(statements)]
fn add_block(alloc: Global, events: &mut Vec<Event>, block: &Block) -> Result<(), AllocError>
    ensures { OnOk result (events.new.items ≡ events.old.items ++ block_events (block_view block.now)) }
{
    events.push(Event::Open)?;
    add_items(alloc, events, &block.items)?;
    events.push(Event::Close)?;
    Ok(())
}

#[cycle(statements)]
pub(crate) fn add_items(
    alloc: Global,
    events: &mut Vec<Event>,
    items: &[Item],
) -> Result<(), AllocError>
    ensures { OnOk result (events.new.items ≡ events.old.items ++ items_events (items_of (map item_view items.now))) }
{
    for item in items {
        add_item(alloc, events, item)?;
    }
    Ok(())
}

#[cycle(statements)]
fn add_item(alloc: Global, events: &mut Vec<Event>, item: &Item) -> Result<(), AllocError>
    ensures { OnOk result (events.new.items ≡ events.old.items ++ item_events (item_view item.now)) }
{
    match item {
        Item::Declaration(declaration) => {
            add_declaration_item(alloc, events, Level::Block, declaration)
        }
        Item::Statement(statement) => add_statement(alloc, events, statement),
        Item::Leave(leave) => add_leave(alloc, events, leave),
    }
}

/// A loop and a selection are a scope of their own (C11 6.8.4p3, 6.8.5p5).
#[cycle(statements)]
fn add_statement(
    alloc: Global,
    events: &mut Vec<Event>,
    statement: &Statement,
) -> Result<(), AllocError>
    ensures { OnOk result (events.new.items ≡ events.old.items ++ statement_events (statement_view statement.now)) }
{
    match statement {
        Statement::Block(block) => add_block(alloc, events, block),
        Statement::If(branch) => add_if(alloc, events, branch),
        Statement::While {
            condition,
            body,
            ..
        } => {
            events.push(Event::Open)?;
            add_expression(alloc, events, Usage::Evaluated, condition)?;
            add_block(alloc, events, body)?;
            events.push(Event::Close)?;
            Ok(())
        }
        Statement::DoWhile {
            body,
            condition,
            ..
        } => {
            events.push(Event::Open)?;
            add_block(alloc, events, body)?;
            add_expression(alloc, events, Usage::Evaluated, condition)?;
            events.push(Event::Close)?;
            Ok(())
        }
        Statement::For {
            start,
            condition,
            step,
            body,
            ..
        } => {
            events.push(Event::Open)?;
            add_optional_start(alloc, events, start)?;
            add_optional_expression(alloc, events, condition)?;
            add_optional_simple(alloc, events, step)?;
            add_block(alloc, events, body)?;
            events.push(Event::Close)?;
            Ok(())
        }
        Statement::Switch {
            subject,
            clauses,
            default,
            ..
        } => {
            events.push(Event::Open)?;
            add_expression(alloc, events, Usage::Evaluated, subject)?;
            add_clauses(alloc, events, clauses)?;
            add_optional_body(alloc, events, default)?;
            events.push(Event::Close)?;
            Ok(())
        }
        Statement::Simple(simple) => add_simple(alloc, events, simple),
        Statement::Continue { .. } | Statement::Empty { .. } => Ok(()),
    }
}

#[cycle(statements)]
fn add_if(alloc: Global, events: &mut Vec<Event>, branch: &If) -> Result<(), AllocError>
    ensures { OnOk result (events.new.items ≡ events.old.items ++ if_events (if_view branch.now)) }
{
    events.push(Event::Open)?;
    add_expression(alloc, events, Usage::Evaluated, &branch.condition)?;
    add_block(alloc, events, &branch.then)?;
    add_optional_otherwise(alloc, events, &branch.otherwise)?;
    events.push(Event::Close)?;
    Ok(())
}

#[cycle(statements)]
fn add_optional_otherwise(
    alloc: Global,
    events: &mut Vec<Event>,
    otherwise: &Option<Otherwise>,
) -> Result<(), AllocError>
    ensures { OnOk result (events.new.items ≡ events.old.items ++ maybe_otherwise_events (maybe_otherwise (option_map otherwise_view otherwise.now))) }
{
    match otherwise {
        Some(Otherwise::Block(block)) => add_block(alloc, events, block),
        Some(Otherwise::If(branch)) => add_if(alloc, events, branch),
        None => Ok(()),
    }
}

#[cycle(statements)]
fn add_clauses(alloc: Global, events: &mut Vec<Event>, clauses: &[Clause]) -> Result<(), AllocError>
    ensures { OnOk result (events.new.items ≡ events.old.items ++ clauses_events (clauses_of (map clause_view clauses.now))) }
{
    for clause in clauses {
        add_labels(alloc, events, &clause.labels)?;
        add_body(alloc, events, &clause.body)?;
    }
    Ok(())
}

#[cycle(statements)]
fn add_optional_body(
    alloc: Global,
    events: &mut Vec<Event>,
    body: &Option<Body>,
) -> Result<(), AllocError>
    ensures { OnOk result (events.new.items ≡ events.old.items ++ maybe_body_events (maybe_body (option_map body_view body.now))) }
{
    match body {
        Some(body) => add_body(alloc, events, body),
        None => Ok(()),
    }
}

#[cycle(statements)]
fn add_body(alloc: Global, events: &mut Vec<Event>, body: &Body) -> Result<(), AllocError>
    ensures { OnOk result (events.new.items ≡ events.old.items ++ body_events (body_view body.now)) }
{
    add_statements(alloc, events, &body.statements)?;
    add_leave(alloc, events, &body.leave)
}

#[cycle(statements)]
fn add_statements(
    alloc: Global,
    events: &mut Vec<Event>,
    statements: &[Statement],
) -> Result<(), AllocError>
    ensures { OnOk result (events.new.items ≡ events.old.items ++ statements_events (statements_of (map statement_view statements.now))) }
{
    for statement in statements {
        add_statement(alloc, events, statement)?;
    }
    Ok(())
}
