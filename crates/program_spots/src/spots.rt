//! The actions of a statement in the turns of the counted loops round them, in the order of the text.
ghost use Rattle.std.specs.Prelude.{◌≡◌, ◌++◌, ◌∷◌, [], suc, map, OnOk, IfOk};
ghost use Rattle.c_program.specs.Control.{round_of as round_in};
ghost use Rattle.c_program.specs.Paths.{in_rounds, each_turn, spots_of, spots_of_condition};
ghost use Rattle.control_flow.specs.Labels.{round_of, spot_of};
ghost use Rattle.program_spots.specs.Listed.{spots_of_list, spots_of_operands, spots_of_turn};

use c_program::statement::{Condition, Counter, Statement};
use control_flow::flow::{Round, Spot};
use std::alloc::{AllocError, Global};

/// Adds an action in its rounds.
fn add_spot(
    alloc: Global,
    action: u32,
    rounds: &[Round],
    spots: &mut Vec<Spot>,
) -> Result<(), AllocError>
    ensures { OnOk result (map spot_of spots.new.items ≡ map spot_of spots.old.items ++ in_rounds (map round_of rounds.now) action ∷ []) }
{
    let rounds = rounds.to_vec(alloc)?;
    match spots.push(Spot { action, rounds }) {
        Ok(()) => Ok(()),
        Err(_) => Err(AllocError),
    }
}

/// The rounds inside a counted loop in a turn, from 0.
fn inner_rounds(
    alloc: Global,
    counter: Counter,
    turn: u32,
    rounds: &[Round],
) -> Result<Vec<Round>, AllocError>
    ensures { IfOk result (λ inner. map round_of inner.items ≡ round_in counter turn ∷ map round_of rounds.now) }
{
    let mut inner = Vec::new(alloc);
    inner.push(Round {
        counter: counter.local,
        value: counter.first as i64 + turn as i64,
    })?;
    for round in rounds {
        inner.push(*round)?;
    }
    Ok(inner)
}

/// Adds the spots of a statement.
#[cycle(spots)]
#[tactic(auto, using(crate::proofs::Spotting::spots))]
pub fn add_spots(
    alloc: Global,
    statement: &Statement,
    rounds: &[Round],
    spots: &mut Vec<Spot>,
) -> Result<(), AllocError>
    ensures { OnOk result (map spot_of spots.new.items ≡ map spot_of spots.old.items ++ spots_of (map round_of rounds.now) statement.now) }
{
    match statement {
        Statement::Do(action) => add_spot(alloc, *action, rounds, spots),
        Statement::Block(all) => add_spots_in(alloc, all.as_slice(), rounds, spots),
        Statement::If(condition, yes, no) => {
            add_tested_spots(alloc, condition.get(), rounds, spots)?;
            add_spots(alloc, yes.get(), rounds, spots)?;
            add_spots(alloc, no.get(), rounds, spots)
        }
        Statement::Loop(first, second) => {
            add_spots(alloc, first.get(), rounds, spots)?;
            add_spots(alloc, second.get(), rounds, spots)
        }
        Statement::Counted(counter, body) => {
            add_spot(alloc, counter.start, rounds, spots)?;
            add_test_spots(alloc, *counter, rounds, spots)?;
            add_turn_spots(alloc, *counter, body.get(), rounds, spots)
        }
        Statement::Switch(action, clauses) => {
            add_spot(alloc, *action, rounds, spots)?;
            add_spots_in(alloc, clauses.as_slice(), rounds, spots)
        }
        Statement::Break => Ok(()),
        Statement::Continue => Ok(()),
    }
}

/// Adds the spot of the condition of a counted loop before a turn.
fn add_test_spot(
    alloc: Global,
    counter: Counter,
    turn: u32,
    rounds: &[Round],
    spots: &mut Vec<Spot>,
) -> Result<(), AllocError>
    ensures { OnOk result (map spot_of spots.new.items ≡ map spot_of spots.old.items ++ in_rounds (round_in counter turn ∷ map round_of rounds.now) counter.test ∷ []) }
{
    let inner = inner_rounds(alloc, counter, turn, rounds)?;
    add_spot(alloc, counter.test, inner.as_slice(), spots)?;
    Ok(())
}

/// Adds the spots of the condition of a counted loop: one more than it has turns.
fn add_test_spots(
    alloc: Global,
    counter: Counter,
    rounds: &[Round],
    spots: &mut Vec<Spot>,
) -> Result<(), AllocError>
    ensures { OnOk result (map spot_of spots.new.items
        ≡ map spot_of spots.old.items ++ each_turn (suc counter.turns) (λ turn. in_rounds (round_in counter turn ∷ map round_of rounds.now) counter.test ∷ [])) }
{
    for turn in 0..counter.turns {
        add_test_spot(alloc, counter, turn, rounds, spots)?;
    }
    add_test_spot(alloc, counter, counter.turns, rounds, spots)?;
    Ok(())
}

/// Adds the spots of the step and of the body of a counted loop, in each turn.
#[cycle(spots)]
#[tactic(auto, using(crate::proofs::Spotting::spots))]
fn add_turn_spots(
    alloc: Global,
    counter: Counter,
    body: &Statement,
    rounds: &[Round],
    spots: &mut Vec<Spot>,
) -> Result<(), AllocError>
    ensures { OnOk result (map spot_of spots.new.items ≡ map spot_of spots.old.items ++ each_turn counter.turns (spots_of_turn counter body.now (map round_of rounds.now))) }
{
    for turn in 0..counter.turns {
        let inner = inner_rounds(alloc, counter, turn, rounds)?;
        add_spot(alloc, counter.step, inner.as_slice(), spots)?;
        add_spots(alloc, body, inner.as_slice(), spots)?;
    }
    Ok(())
}

/// Adds the spots of some statements.
#[cycle(spots)]
#[tactic(auto, using(crate::proofs::Spotting::spots))]
fn add_spots_in(
    alloc: Global,
    all: &[Statement],
    rounds: &[Round],
    spots: &mut Vec<Spot>,
) -> Result<(), AllocError>
    ensures { OnOk result (map spot_of spots.new.items ≡ map spot_of spots.old.items ++ spots_of_list (map round_of rounds.now) all.now) }
{
    for k in 0..all.len() {
        add_spots(alloc, &all[k], rounds, spots)?;
    }
    Ok(())
}

/// Adds the spots of a condition.
#[cycle(spots)]
#[tactic(auto, using(crate::proofs::Spotting::spots))]
fn add_tested_spots(
    alloc: Global,
    condition: &Condition,
    rounds: &[Round],
    spots: &mut Vec<Spot>,
) -> Result<(), AllocError>
    ensures { OnOk result (map spot_of spots.new.items ≡ map spot_of spots.old.items ++ spots_of_condition (map round_of rounds.now) condition.now) }
{
    match condition {
        Condition::Test(action) => add_spot(alloc, *action, rounds, spots),
        Condition::Not(operand) => add_tested_spots(alloc, operand.get(), rounds, spots),
        Condition::And(all) => add_operand_spots(alloc, all.as_slice(), rounds, spots),
        Condition::Or(all) => add_operand_spots(alloc, all.as_slice(), rounds, spots),
        Condition::After(before, last) => {
            add_spots(alloc, before.get(), rounds, spots)?;
            add_tested_spots(alloc, last.get(), rounds, spots)
        }
    }
}

/// Adds the spots of some operands.
#[cycle(spots)]
#[tactic(auto, using(crate::proofs::Spotting::spots))]
fn add_operand_spots(
    alloc: Global,
    all: &[Condition],
    rounds: &[Round],
    spots: &mut Vec<Spot>,
) -> Result<(), AllocError>
    ensures { OnOk result (map spot_of spots.new.items ≡ map spot_of spots.old.items ++ spots_of_operands (map round_of rounds.now) all.now) }
{
    for k in 0..all.len() {
        add_tested_spots(alloc, &all[k], rounds, spots)?;
    }
    Ok(())
}
