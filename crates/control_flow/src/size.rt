//! How many nodes a statement has.
ghost use Rattle.std.specs.Prelude.{◌≡◌, ◌+◌, suc, IfOk};
ghost use Rattle.control_flow.specs.Layout.{size_of, size_of_test, times};
ghost use Rattle.control_flow.specs.Listed.{size_of_list, size_of_operands};

use crate::stop::{BuildStop, plus};
use c_program::statement::{Condition, Statement};

#[cycle(size)]
#[tactic(auto, using(crate::proofs::Sizing::sizes))]
pub fn size(statement: &Statement) -> Result<u32, BuildStop>
    ensures { IfOk result (λ n. n ≡ size_of statement.now) }
{
    match statement {
        Statement::Do(_) => Ok(1),
        Statement::Block(all) => size_in(all.as_slice()),
        Statement::If(condition, yes, no) => {
            let tests = size_tested(condition.get())?;
            let a = size(yes.get())?;
            let b = size(no.get())?;
            let both = plus(a, b)?;
            plus(tests, both)
        }
        Statement::Loop(first, second) => {
            let a = size(first.get())?;
            let b = size(second.get())?;
            plus(a, b)
        }
        Statement::Counted(counter, body) => {
            let turn = size(body.get())?;
            size_of_turns(counter.turns, turn)
        }
        Statement::Switch(_, clauses) => {
            let all = size_in(clauses.as_slice())?;
            plus(all, 1)
        }
        Statement::Break => Ok(0),
        Statement::Continue => Ok(0),
    }
}

/// The nodes of a counted loop, with so many in its body.
pub fn size_of_turns(turns: u32, body: u32) -> Result<u32, BuildStop>
    ensures { IfOk result (λ n. n ≡ suc (suc turns + times turns (suc body))) }
{
    let turn = plus(body, 1)?;
    let mut all = 0;
    for _k in 0..turns {
        all = plus(all, turn)?;
    }
    let tests = plus(turns, 2)?;
    plus(tests, all)
}

#[cycle(size)]
#[tactic(auto, using(crate::proofs::Sizing::sizes))]
pub fn size_in(all: &[Statement]) -> Result<u32, BuildStop>
    ensures { IfOk result (λ n. n ≡ size_of_list all.now) }
{
    let mut total = 0;
    for k in 0..all.len() {
        let one = size(&all[k])?;
        total = plus(total, one)?;
    }
    Ok(total)
}

#[cycle(size)]
#[tactic(auto, using(crate::proofs::Sizing::sizes))]
pub fn size_tested(condition: &Condition) -> Result<u32, BuildStop>
    ensures { IfOk result (λ n. n ≡ size_of_test condition.now) }
{
    match condition {
        Condition::Test(_) => Ok(1),
        Condition::Not(operand) => size_tested(operand.get()),
        Condition::And(all) => size_of_all_tested(all.as_slice()),
        Condition::Or(all) => size_of_all_tested(all.as_slice()),
        Condition::After(before, last) => {
            let a = size(before.get())?;
            let b = size_tested(last.get())?;
            plus(a, b)
        }
    }
}

#[cycle(size)]
#[tactic(auto, using(crate::proofs::Sizing::sizes))]
fn size_of_all_tested(all: &[Condition]) -> Result<u32, BuildStop>
    ensures { IfOk result (λ n. n ≡ size_of_operands all.now) }
{
    let mut total = 0;
    for k in 0..all.len() {
        let one = size_tested(&all[k])?;
        total = plus(total, one)?;
    }
    Ok(total)
}
