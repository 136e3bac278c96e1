ghost use Rattle.std.specs.Prelude.{◌≡◌, ◌∷◌, map, IfOk, Some};
ghost use Rattle.std.specs.Option.{option_map};
ghost use Rattle.c_rawtree.specs.Statements;
ghost use Rattle.c_rawtree.specs.Views.{boxed_view};
ghost use Rattle.c_rawtree.specs.StatementViews;
ghost use Rattle.c_rawtree.specs.StatementViews.{simple_view, leave_view, case_label_view, statement_view, body_view, clause_view};
ghost use Rattle.c_parts.specs.PartData;
ghost use Rattle.c_parts.specs.PartViews.{leaf_view, operand_view, simple_rest_view, statement_part_view, parts_view};
ghost use Rattle.c_parts.specs.Reading.{Fits};
ghost use Rattle.c_nodes.specs.declared.switch_nodes.SwitchAction.TheVariants as ActionOf;
ghost use Rattle.c_nodes.specs.SwitchNodes.{kinds, simple, node};

use c_parts::{AssignmentSign, Chain, Leaf, Operand, Parts, SimpleRest, StatementPart, StepSign};
use c_rawtree::{Body, CaseLabel, Clause, Expression, Leave, Simple, Statement, Step};
use std::alloc::{AllocError, Global};

/// What a production of clauses of a `switch`, jumps, assignments and steps makes of its parts.
#[derive(Clone, Copy)]
pub enum SwitchAction {
    /// One clause, and those behind it.
    Clauses,
    /// No more clauses.
    NoClauses,
    /// `default : body`
    Default,
    /// No `default`.
    NoDefault,
    /// `case value : { case value : } body` (C11 6.8.1).
    Clause,
    /// `case value :`, and the labels behind it.
    CaseLabels,
    /// No more labels.
    NoCaseLabels,
    /// `{ statement } leave`
    Body,
    /// One statement, and those behind it.
    Statements,
    /// No more statements.
    NoStatements,
    /// `break ;` (C11 6.8.6.3).
    Break,
    /// `return [ value ] ;` (C11 6.8.6.4).
    Return,
    /// `++ operand` or `-- operand` (C11 6.5.3.1).
    PrefixStep,
    /// `expression [ assignment | step ]`
    Simple,
    /// `= value`, or an operator with it (C11 6.5.16).
    Assignment,
    /// `++` or `--` behind an expression (C11 6.5.2.4).
    PostfixStep(Step),
    /// An expression alone.
    NoSimpleRest,
}

/// What the production makes of the parts.
pub(crate) fn switch_node(
    alloc: Global,
    action: SwitchAction,
    parts: &mut Parts,
) -> Result<StatementPart, AllocError>
    requires { Fits (kinds action) (parts_view parts.now) }
    ensures { IfOk result (λ p. statement_part_view p ≡ node action (parts_view parts.old)) }
{
    match action {
        SwitchAction::Clauses => clauses(
            parts.statement_part().clause(),
            parts.statement_part().clauses(),
        ),
        SwitchAction::NoClauses => Ok(StatementPart::Clauses(Chain::new(alloc))),
        SwitchAction::Default => {
            parts.leaf();
            parts.leaf();
            Ok(StatementPart::OptionalBody(Some(parts.statement_part().body())))
        },
        SwitchAction::NoDefault => Ok(StatementPart::OptionalBody(None)),
        SwitchAction::Clause => one_clause(parts),
        SwitchAction::CaseLabels => case_labels(parts),
        SwitchAction::NoCaseLabels => Ok(StatementPart::CaseLabels(Chain::new(alloc))),
        SwitchAction::Body => Ok(StatementPart::Body(body(
            parts.statement_part().statements(),
            parts.statement_part().leave(),
        ))),
        SwitchAction::Statements => statements(
            parts.statement_part().statement(),
            parts.statement_part().statements(),
        ),
        SwitchAction::NoStatements => Ok(StatementPart::Statements(Chain::new(alloc))),
        SwitchAction::Break => Ok(StatementPart::Leave(break_leave(parts.leaf()))),
        SwitchAction::Return => Ok(StatementPart::Leave(return_leave(
            parts.leaf(),
            parts.expression_part().optional_expression(),
        ))),
        SwitchAction::PrefixStep => Ok(StatementPart::Simple(prefix_step(
            parts.expression_part().step_sign(),
            parts.expression_part().operand(),
        ))),
        SwitchAction::Simple => Ok(StatementPart::Simple(simple(
            parts.expression_part().operand(),
            parts.statement_part().simple_rest(),
        ))),
        SwitchAction::Assignment => Ok(StatementPart::SimpleRest(assignment(
            parts.expression_part().assignment_sign(),
            parts.expression_part().operand(),
        ))),
        SwitchAction::PostfixStep(step) => Ok(StatementPart::SimpleRest(postfix_step(
            parts.leaf(),
            step,
        ))),
        SwitchAction::NoSimpleRest => Ok(StatementPart::SimpleRest(None)),
    }
}

fn clauses(one: Clause, mut clauses: Chain<Clause>) -> Result<StatementPart, AllocError>
    ensures { IfOk result (λ part. statement_part_view part ≡ PartData.clauses ((clause_view one) ∷ (map clause_view clauses))) }
{
    clauses.put_front(one)?;
    Ok(StatementPart::Clauses(clauses))
}

fn one_clause(parts: &mut Parts) -> Result<StatementPart, AllocError>
    requires { Fits (kinds ActionOf.Clause) (parts_view parts.now) }
    ensures { IfOk result (λ part. statement_part_view part ≡ node ActionOf.Clause (parts_view parts.old)) }
{
    let place = parts.leaf().place;
    let value = parts.expression_part().operand().expression;
    parts.leaf();
    let mut labels = parts.statement_part().case_labels();
    labels.put_front(CaseLabel { place, value })?;
    Ok(StatementPart::Clause(clause(labels, parts.statement_part().body())))
}

fn case_labels(parts: &mut Parts) -> Result<StatementPart, AllocError>
    requires { Fits (kinds ActionOf.CaseLabels) (parts_view parts.now) }
    ensures { IfOk result (λ part. statement_part_view part ≡ node ActionOf.CaseLabels (parts_view parts.old)) }
{
    let place = parts.leaf().place;
    let value = parts.expression_part().operand().expression;
    parts.leaf();
    let mut labels = parts.statement_part().case_labels();
    labels.put_front(CaseLabel { place, value })?;
    Ok(StatementPart::CaseLabels(labels))
}

fn body(statements: Chain<Statement>, leave: Leave) -> Body
    ensures { body_view result ≡ Statements.body (StatementViews.statements_of (map statement_view statements)) (leave_view leave) }
{
    Body {
        statements: statements.into_vec(),
        leave,
    }
}

fn statements(one: Statement, mut statements: Chain<Statement>) -> Result<StatementPart, AllocError>
    ensures { IfOk result (λ part. statement_part_view part ≡ PartData.statements ((statement_view one) ∷ (map statement_view statements))) }
{
    statements.put_front(one)?;
    Ok(StatementPart::Statements(statements))
}

fn break_leave(keyword: Leaf) -> Leave
    ensures { leave_view result ≡ Statements.breaks (leaf_view keyword.entry).place }
{
    Leave::Break {
        place: keyword.place,
    }
}

fn return_leave(keyword: Leaf, value: Option<Box<Expression>>) -> Leave
    ensures { leave_view result ≡ Statements.returns (leaf_view keyword.entry).place (option_map boxed_view value) }
{
    Leave::Return {
        place: keyword.place,
        value,
    }
}

fn prefix_step(sign: StepSign, right: Operand) -> Simple
    ensures { simple_view result ≡ Statements.prefix_step sign.place sign.step (operand_view right).expression }
{
    Simple::Prefix {
        place: sign.place,
        step: sign.step,
        operand: right.expression,
    }
}

fn assignment(sign: AssignmentSign, value: Operand) -> Option<SimpleRest>
    ensures { option_map simple_rest_view result ≡ Some (PartData.rest_assignment sign.place sign.operator (operand_view value).expression) }
{
    Some(SimpleRest::Assignment {
        place: sign.place,
        operator: sign.operator,
        value: value.expression,
    })
}

fn postfix_step(sign: Leaf, step: Step) -> Option<SimpleRest>
    ensures { option_map simple_rest_view result ≡ Some (PartData.rest_step (leaf_view sign.entry).place step) }
{
    Some(SimpleRest::Step {
        place: sign.place,
        step,
    })
}

/// A clause of these labels.
fn clause(labels: Chain<CaseLabel>, body: Body) -> Clause
    ensures { clause_view result ≡ record { labels = map case_label_view labels; body = body_view body } }
{
    Clause {
        labels: labels.into_vec(),
        body,
    }
}

/// An expression, an assignment, or a step behind an expression.
fn simple(left: Operand, behind: Option<SimpleRest>) -> Simple
    ensures { simple_view result ≡ simple (operand_view left) (option_map simple_rest_view behind) }
{
    match behind {
        None => Simple::Expression(left.expression),
        Some(
            SimpleRest::Assignment {
                place,
                operator,
                value,
            },
        ) => Simple::Assignment {
            target: left.expression,
            place,
            operator,
            value,
        },
        Some(SimpleRest::Step { place, step }) => Simple::Postfix {
            operand: left.expression,
            bracketed: left.bracketed,
            place,
            step,
        },
    }
}
