//! How many actions in turns a statement has, up to a limit, so that no sum overflows and no list gets too long.
ghost use Rattle.std.specs.Prelude.{◌≡◌, ◌+◌, ◌≤◌, suc, min};
ghost use Rattle.control_flow.specs.Layout.{size_of, size_of_test, times};
ghost use Rattle.control_flow.specs.Listed.{size_of_list, size_of_operands};
ghost use Rattle.program_spots.specs.Counts.{counted};

use c_program::statement::{Condition, Statement};

/// How many a program may have.
pub const LIMIT: u32 = 60_000;

/// A sum that stops behind the limit.
pub fn capped_sum(a: u32, b: u32) -> u32
    requires a { a ≤ 60001 }
    requires b { b ≤ 60001 }
    ensures { result ≡ counted (a + b) }
{
    let sum = a + b;
    if sum > LIMIT { LIMIT + 1 } else { sum }
}

/// How many a statement has, and 60,001 where it has more than 60,000.
#[cycle(count)]
#[tactic(auto, using(crate::proofs::Counting::counts))]
pub fn count(statement: &Statement) -> u32
    ensures { result ≡ counted (size_of statement.now) }
{
    match statement {
        Statement::Do(_) => 1,
        Statement::Block(all) => count_in(all.as_slice()),
        Statement::If(condition, yes, no) => {
            let tests = count_tested(condition.get());
            let sides = capped_sum(count(yes.get()), count(no.get()));
            capped_sum(tests, sides)
        }
        Statement::Loop(first, second) => capped_sum(count(first.get()), count(second.get())),
        Statement::Counted(counter, body) => count_turns(counter.turns, count(body.get())),
        Statement::Switch(_, clauses) => capped_sum(1, count_in(clauses.as_slice())),
        Statement::Break => 0,
        Statement::Continue => 0,
    }
}

/// How many a counted loop has, with so many in its body: its start, its condition once more than its turns, its step and
/// its body in each turn.
fn count_turns(turns: u32, body: u32) -> u32
    requires { body ≤ 60001 }
    ensures { result ≡ counted (suc (suc turns + times turns (suc body))) }
{
    if turns > LIMIT {
        return LIMIT + 1;
    }
    let mut all = capped_sum(turns, 2);
    for _k in 0..turns {
        all = capped_sum(all, capped_sum(1, body));
    }
    all
}

/// How many some statements have.
#[cycle(count)]
#[tactic(auto, using(crate::proofs::Counting::counts))]
fn count_in(all: &[Statement]) -> u32
    ensures { result ≡ counted (size_of_list all.now) }
{
    let mut total = 0;
    for k in 0..all.len() {
        total = capped_sum(total, count(&all[k]));
    }
    total
}

/// How many a condition has.
#[cycle(count)]
#[tactic(auto, using(crate::proofs::Counting::counts))]
fn count_tested(condition: &Condition) -> u32
    ensures { result ≡ counted (size_of_test condition.now) }
{
    match condition {
        Condition::Test(_) => 1,
        Condition::Not(operand) => count_tested(operand.get()),
        Condition::And(all) => count_operands(all.as_slice()),
        Condition::Or(all) => count_operands(all.as_slice()),
        Condition::After(before, last) => {
            capped_sum(count(before.get()), count_tested(last.get()))
        }
    }
}

/// How many some operands have.
#[cycle(count)]
#[tactic(auto, using(crate::proofs::Counting::counts))]
fn count_operands(all: &[Condition]) -> u32
    ensures { result ≡ counted (size_of_operands all.now) }
{
    let mut total = 0;
    for k in 0..all.len() {
        total = capped_sum(total, count_tested(&all[k]));
    }
    total
}
