//! What comes next behind each node of a statement.
ghost use Rattle.std.specs.Prelude.{◌≡◌, ◌+◌, ◌++◌, suc, [], ◌∷◌, drop, OnOk, IfOk, option_to_list};
ghost use Rattle.control_flow.specs.Layout.{size_of, nexts_of, nexts_of_test};
ghost use Rattle.c_program.specs.Paths.{each_turn};
ghost use Rattle.control_flow.specs.Listed.{test_row, turn_rows, first_of_rest, firsts_of_list, nexts_of_list, nexts_of_clauses, nexts_where_all, nexts_where_any};
ghost use Rattle.control_flow.specs.Rows.{nexts_in};

use crate::first::{Targets, first_in, first_node, first_tested};
use crate::rows::{Row, add_branch, add_node, add_one, add_row};
use crate::size::{size, size_tested};
use crate::stop::{BuildStop, plus};
use c_program::statement::{Condition, Counter, Statement};
use std::alloc::Global;

/// Where control goes from a condition, by the numbers of nodes.
#[derive(Clone, Copy)]
pub struct Choice {
    /// Where it holds.
    pub good: Option<u32>,
    /// Where it does not.
    pub bad: Option<u32>,
    pub out: Option<u32>,
    pub again: Option<u32>,
}

/// Adds the rows of a statement, whose nodes begin with the n-th.
#[cycle(nexts)]
#[tactic(auto, using(crate::proofs::Nexting::nexts))]
pub fn add(
    alloc: Global,
    statement: &Statement,
    n: u32,
    targets: Targets,
    rows: &mut Vec<Row>,
) -> Result<(), BuildStop>
    ensures { OnOk result (nexts_in rows.new.items
        ≡ nexts_in rows.old.items ++ nexts_of statement.now n (option_to_list targets.here) (option_to_list targets.out) (option_to_list targets.again)) }
{
    match statement {
        Statement::Do(_) => add_one(alloc, rows, targets.here),
        Statement::Block(all) => add_in(alloc, all.as_slice(), n, targets, rows),
        Statement::If(condition, yes, no) => {
            let tests = size_tested(condition.get())?;
            let place = plus(n, tests)?;
            let length = size(yes.get())?;
            let behind = plus(place, length)?;
            let good = first_node(yes.get(), place, targets)?;
            let bad = first_node(no.get(), behind, targets)?;
            let choice = Choice {
                good,
                bad,
                out: targets.out,
                again: targets.again,
            };
            add_tested(alloc, condition.get(), n, choice, rows)?;
            add(alloc, yes.get(), place, targets, rows)?;
            add(alloc, no.get(), behind, targets, rows)
        }
        Statement::Loop(a, b) => {
            let length = size(a.get())?;
            let place = plus(n, length)?;
            let inside = Targets {
                here: None,
                out: targets.here,
                again: None,
            };
            let begin = first_node(a.get(), n, inside)?;
            let second = Targets {
                here: begin,
                out: targets.here,
                again: None,
            };
            let next = first_node(b.get(), place, second)?;
            let turn = Targets {
                here: next,
                out: targets.here,
                again: next,
            };
            add(alloc, a.get(), n, turn, rows)?;
            let round = first_node(statement, n, targets)?;
            let last = Targets {
                here: round,
                out: targets.here,
                again: None,
            };
            add(alloc, b.get(), place, last, rows)
        }
        Statement::Counted(counter, body) => {
            let length = size(body.get())?;
            let test = plus(n, 1)?;
            add_one(alloc, rows, Some(test))?;
            add_tests(alloc, *counter, body.get(), n, length, targets.here, rows)?;
            add_turns(alloc, *counter, body.get(), n, length, rows)
        }
        Statement::Switch(_, clauses) => {
            let place = plus(n, 1)?;
            let inside = Targets {
                here: targets.here,
                out: targets.here,
                again: targets.again,
            };
            add_firsts(alloc, clauses.as_slice(), place, inside, rows)?;
            add_clauses(alloc, clauses.as_slice(), place, inside, rows)
        }
        Statement::Break => Ok(()),
        Statement::Continue => Ok(()),
    }
}

/// The node of the step of a counted loop in its first turn.
fn first_step(counter: Counter, n: u32) -> Result<u32, BuildStop>
    ensures { IfOk result (λ step. step ≡ suc n + suc counter.turns) }
{
    let tests = plus(n, counter.turns)?;
    plus(tests, 2)
}

/// Adds the rows of the condition of a counted loop.
fn add_tests(
    alloc: Global,
    counter: Counter,
    body: &Statement,
    n: u32,
    length: u32,
    here: Option<u32>,
    rows: &mut Vec<Row>,
) -> Result<(), BuildStop>
    requires { length ≡ size_of body.now }
    ensures { OnOk result (nexts_in rows.new.items
        ≡ nexts_in rows.old.items ++ each_turn (suc counter.turns) (λ turn. test_row counter body.now n (option_to_list here) turn ∷ [])) }
{
    let mut step = first_step(counter, n)?;
    for _turn in 0..counter.turns {
        let begin = plus(step, 1)?;
        let inside = Targets {
            here: Some(step),
            out: None,
            again: Some(step),
        };
        let found = first_node(body, begin, inside)?;
        add_one(alloc, rows, found)?;
        step = plus(begin, length)?;
    }
    add_one(alloc, rows, here)
}

/// Adds the rows of the steps and of the bodies of a counted loop.
#[cycle(nexts)]
#[tactic(auto, using(crate::proofs::Nexting::nexts))]
fn add_turns(
    alloc: Global,
    counter: Counter,
    body: &Statement,
    n: u32,
    length: u32,
    rows: &mut Vec<Row>,
) -> Result<(), BuildStop>
    requires { length ≡ size_of body.now }
    ensures { OnOk result (nexts_in rows.new.items ≡ nexts_in rows.old.items ++ each_turn counter.turns (turn_rows counter body.now n)) }
{
    let mut test = plus(n, 1)?;
    let mut step = first_step(counter, n)?;
    for _turn in 0..counter.turns {
        test = plus(test, 1)?;
        add_one(alloc, rows, Some(test))?;
        let begin = plus(step, 1)?;
        let inside = Targets {
            here: Some(step),
            out: None,
            again: Some(step),
        };
        add(alloc, body, begin, inside, rows)?;
        step = plus(begin, length)?;
    }
    Ok(())
}

/// Adds the rows of the statements of a block.
#[cycle(nexts)]
#[tactic(auto, using(crate::proofs::Nexting::nexts))]
fn add_in(
    alloc: Global,
    all: &[Statement],
    n: u32,
    targets: Targets,
    rows: &mut Vec<Row>,
) -> Result<(), BuildStop>
    ensures { OnOk result (nexts_in rows.new.items
        ≡ nexts_in rows.old.items ++ nexts_of_list all.now n (option_to_list targets.here) (option_to_list targets.out) (option_to_list targets.again)) }
{
    let mut place = n;
    for k in 0..all.len() {
        let one = &all[k];
        let length = size(one)?;
        let behind = plus(place, length)?;
        let here = first_in(&all[k + 1..], behind, targets)?;
        let before = Targets {
            here,
            out: targets.out,
            again: targets.again,
        };
        add(alloc, one, place, before, rows)?;
        place = behind;
    }
    Ok(())
}

/// Adds the row of a switch.
fn add_firsts(
    alloc: Global,
    clauses: &[Statement],
    n: u32,
    targets: Targets,
    rows: &mut Vec<Row>,
) -> Result<(), BuildStop>
    ensures { OnOk result (nexts_in rows.new.items
        ≡ nexts_in rows.old.items ++ firsts_of_list clauses.now n (option_to_list targets.here) (option_to_list targets.out) (option_to_list targets.again) ∷ []) }
{
    let mut next = Vec::new(alloc);
    let mut place = n;
    for k in 0..clauses.len() {
        let one = &clauses[k];
        let found = first_node(one, place, targets)?;
        add_node(&mut next, found)?;
        let length = size(one)?;
        place = plus(place, length)?;
    }
    add_row(rows, next)
}

/// Adds the rows of the clauses of a switch.
#[cycle(nexts)]
#[tactic(auto, using(crate::proofs::Nexting::nexts))]
fn add_clauses(
    alloc: Global,
    clauses: &[Statement],
    n: u32,
    targets: Targets,
    rows: &mut Vec<Row>,
) -> Result<(), BuildStop>
    ensures { OnOk result (nexts_in rows.new.items
        ≡ nexts_in rows.old.items ++ nexts_of_clauses clauses.now n (option_to_list targets.here) (option_to_list targets.out) (option_to_list targets.again)) }
{
    let mut place = n;
    for k in 0..clauses.len() {
        let one = &clauses[k];
        add(alloc, one, place, targets, rows)?;
        let length = size(one)?;
        place = plus(place, length)?;
    }
    Ok(())
}

/// Adds the rows of a condition.
#[cycle(nexts)]
#[tactic(auto, using(crate::proofs::Nexting::nexts))]
fn add_tested(
    alloc: Global,
    condition: &Condition,
    n: u32,
    choice: Choice,
    rows: &mut Vec<Row>,
) -> Result<(), BuildStop>
    ensures { OnOk result (nexts_in rows.new.items
        ≡ nexts_in rows.old.items ++ nexts_of_test condition.now n (option_to_list choice.good) (option_to_list choice.bad) (option_to_list choice.out) (option_to_list choice.again)) }
{
    match condition {
        Condition::Test(_) => add_branch(alloc, rows, choice.good, choice.bad),
        Condition::Not(operand) => {
            let turned = Choice {
                good: choice.bad,
                bad: choice.good,
                out: choice.out,
                again: choice.again,
            };
            add_tested(alloc, operand.get(), n, turned, rows)
        }
        Condition::And(all) => add_all(alloc, all.as_slice(), n, choice, rows),
        Condition::Or(all) => add_any(alloc, all.as_slice(), n, choice, rows),
        Condition::After(before, last) => {
            let length = size(before.get())?;
            let place = plus(n, length)?;
            let here = first_tested(last.get(), place, choice.out, choice.again)?;
            let inside = Targets {
                here,
                out: choice.out,
                again: choice.again,
            };
            add(alloc, before.get(), n, inside, rows)?;
            add_tested(alloc, last.get(), place, choice, rows)
        }
    }
}

/// The first of the operands from the k-th on, or what comes behind them.
fn first_left(
    all: &[Condition],
    k: usize,
    n: u32,
    behind: Option<u32>,
    choice: Choice,
) -> Result<Option<u32>, BuildStop>
    ensures { IfOk result (λ found. option_to_list found ≡ first_of_rest (drop k all.now) n (option_to_list behind) (option_to_list choice.out) (option_to_list choice.again)) }
{
    if k < all.len() {
        first_tested(&all[k], n, choice.out, choice.again)
    } else {
        Ok(behind)
    }
}

/// Adds the rows of operands that all have to hold.
#[cycle(nexts)]
#[tactic(auto, using(crate::proofs::Nexting::nexts))]
fn add_all(
    alloc: Global,
    all: &[Condition],
    n: u32,
    choice: Choice,
    rows: &mut Vec<Row>,
) -> Result<(), BuildStop>
    ensures { OnOk result (nexts_in rows.new.items
        ≡ nexts_in rows.old.items ++ nexts_where_all all.now n (option_to_list choice.good) (option_to_list choice.bad) (option_to_list choice.out) (option_to_list choice.again)) }
{
    let mut place = n;
    for k in 0..all.len() {
        let one = &all[k];
        let length = size_tested(one)?;
        let behind = plus(place, length)?;
        let good = first_left(all, k + 1, behind, choice.good, choice)?;
        let inside = Choice {
            good,
            bad: choice.bad,
            out: choice.out,
            again: choice.again,
        };
        add_tested(alloc, one, place, inside, rows)?;
        place = behind;
    }
    Ok(())
}

/// Adds the rows of operands of which one has to hold.
#[cycle(nexts)]
#[tactic(auto, using(crate::proofs::Nexting::nexts))]
fn add_any(
    alloc: Global,
    all: &[Condition],
    n: u32,
    choice: Choice,
    rows: &mut Vec<Row>,
) -> Result<(), BuildStop>
    ensures { OnOk result (nexts_in rows.new.items
        ≡ nexts_in rows.old.items ++ nexts_where_any all.now n (option_to_list choice.good) (option_to_list choice.bad) (option_to_list choice.out) (option_to_list choice.again)) }
{
    let mut place = n;
    for k in 0..all.len() {
        let one = &all[k];
        let length = size_tested(one)?;
        let behind = plus(place, length)?;
        let bad = first_left(all, k + 1, behind, choice.bad, choice)?;
        let inside = Choice {
            good: choice.good,
            bad,
            out: choice.out,
            again: choice.again,
        };
        add_tested(alloc, one, place, inside, rows)?;
        place = behind;
    }
    Ok(())
}
