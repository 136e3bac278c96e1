//! The tables of the points, made in one pass.
ghost use Rattle.std.specs.Prelude.{◌≡◌, ℕ, ◌+◌, ◌<◌, ◌≤◌, OnOk, IfOk, MatchOption, MatchResult, Some, slice_index, min, length, vec_len};
ghost use Rattle.flow_points.specs.Graphs.{IsGraph, transfer_at, first_of, length_of};
ghost use Rattle.flow_points.specs.Transfers.{callee_of};
ghost use Rattle.flow_points.specs.Tables.{cap, size_of, weight_of, HasTotals, HasBefore, Extends, IsCounted};
ghost use Rattle.flow_points.specs.Stops.{StopsBy};

use crate::graph::Graph;
use crate::points::NumberedPoints;
use std::alloc::{AllocError, Global};

/// The greatest number of points that a program may have.
const LIMIT: u32 = 4_000_000_000;

/// Why a program's points were not numbered.
#[derive(Clone, Copy, Debug, PartialEq, Eq)]
pub enum ExpandStop {
    TooMany,
    Memory,
}

/// A sum that stops behind the limit.
fn capped_sum(a: u32, b: u32) -> u32
    ensures { result ≡ min cap (a + b) }
{
    let sum = a as u64 + b as u64;
    if sum > LIMIT as u64 {
        LIMIT + 1
    } else {
        sum as u32
    }
}

/// How many points an action has, with all that it calls.
fn weight(graph: &Graph, totals: &[u32], action: u32) -> u32
    requires action { action < length graph.now.nodes.items }
    requires callee { (callee : ℕ) → callee_of (transfer_at graph.now action) ≡ Some callee → callee < length totals.now }
    requires totals { HasTotals graph.now totals.now }
    ensures { result ≡ min cap (weight_of graph.now action) }
{
    match graph.transfer(action).callee() {
        Some(callee) => capped_sum(1, totals[callee as usize]),
        None => 1,
    }
}

/// Adds the entries of a function's actions, and answers the function's.
fn count_function(
    graph: &Graph,
    totals: &[u32],
    before: &mut Vec<u32>,
    number: u32,
) -> Result<u32, AllocError>
    requires whole { IsGraph graph.now }
    requires number { number < length graph.now.functions.items }
    requires totals { HasTotals graph.now totals.now }
    requires all { length totals.now ≡ number }
    requires place { first_of graph.now number ≡ vec_len before.old }
    ensures total { IfOk result (λ total. total ≡ min cap (size_of graph.now number)) }
    ensures extends { OnOk result (Extends before.old.items before.new.items) }
    ensures place { OnOk result (vec_len before.new ≡ first_of graph.now number + length_of graph.now number) }
    ensures before { OnOk result (HasBefore graph.now before.new.items number) }
{
    let function = graph.function(number);
    let mut sum = 0;
    for k in 0..function.length {
        before.push(sum)?;
        sum = capped_sum(sum, weight(graph, totals, function.first + k));
    }
    Ok(sum)
}

/// The entries of all actions and of all functions.
#[derive(Drop)]
struct Tables {
    before: Vec<u32>,
    totals: Vec<u32>,
}

fn count(alloc: Global, graph: &Graph) -> Result<Tables, AllocError>
    requires { IsGraph graph.now }
    ensures { IfOk result (λ tables. IsCounted graph.now tables.before.items tables.totals.items) }
{
    let mut before = Vec::new(alloc);
    let mut totals = Vec::new(alloc);
    for number in 0..graph.functions.len() as u32 {
        let total = count_function(graph, &totals, &mut before, number)?;
        totals.push(total)?;
    }
    Ok(Tables { before, totals })
}

/// Numbers the points of a program.
pub fn expand(alloc: Global, graph: Graph) -> Result<NumberedPoints, ExpandStop>
    requires { IsGraph graph }
    ensures { MatchResult result (λ points. points.graph ≡ graph) (StopsBy graph) }
{
    let Tables { before, totals } = match count(alloc, &graph) {
        Ok(tables) => tables,
        Err(_) => return Err(ExpandStop::Memory),
    };
    if totals[graph.main as usize] > LIMIT {
        return Err(ExpandStop::TooMany);
    }
    Ok(NumberedPoints {
        graph,
        before,
        totals,
    })
}
