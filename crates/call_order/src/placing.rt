//! Needed functions are placed in rounds: in each one those whose callees are all placed.
ghost use Rattle.std.specs.Prelude.{◌≡◌, ◌<◌, ◌^◌, ℕ, false, OnOk, IfOk, MatchResult, length, slice_index_or};
ghost use Rattle.std.specs.List.{list_all};
ghost use Rattle.call_order.specs.Marks.{Grows};
ghost use Rattle.call_order.specs.Orders.{IsOrder};
ghost use Rattle.call_order.specs.Placings.{IsPlacing, IsStuck, IsStuckBelow};
ghost use Rattle.call_order.specs.Stops.{StopsBy};

use crate::calls::Callees;
use crate::needed::{is_marked, needed, none_marked};
use std::alloc::{AllocError, Global};

/// The functions that are placed.
#[derive(Drop)]
struct Placing {
    /// For each function whether it is placed.
    placed: Vec<bool>,
    order: Vec<u32>,
}

impl Placing {
    fn new(alloc: Global, count: usize) -> Result<Placing, AllocError>
        requires { count < 2 ^ 32 }
        ensures long { IfOk result (λ p. length p.placed.items ≡ count) }
        ensures none { IfOk result (λ p. (f : ℕ) → slice_index_or p.placed.items f false ≡ false) }
        ensures order { IfOk result (λ p. length p.order.items ≡ 0) }
    {
        let placed = none_marked(alloc, count)?;
        Ok(Placing {
            placed,
            order: Vec::new(alloc),
        })
    }

    fn is_placed(&self, function: u32) -> bool
        ensures { result ≡ slice_index_or self.now.placed.items function false }
    {
        is_marked(self.placed.as_slice(), function)
    }

    /// Whether all of these are placed.
    fn are_placed(&self, functions: &[u32]) -> bool
        ensures { result ≡ list_all (λ f. slice_index_or self.now.placed.items f false) functions.now }
    {
        functions.iter().all(|function| self.is_placed(*function))
    }

    /// Places a needed function, if it is not placed and all that it names are. Answers whether it did.
    fn place(
        &mut self,
        calls: &[Callees],
        needed: &[bool],
        function: u32,
    ) -> Result<bool, AllocError>
        requires placing { IsPlacing calls.now needed.now self.old }
        requires function { function < length calls.now }
        ensures placing { OnOk result (IsPlacing calls.now needed.now self.new) }
        ensures grows { IfOk result (λ grew. Grows self.old.placed.items self.new.placed.items grew) }
        ensures stuck { IfOk result (λ grew. grew ≡ false → IsStuck calls.now needed.now self.new function) }
    {
        if self.is_placed(function) || !is_marked(needed, function) {
            return Ok(false);
        }
        if !self.are_placed(calls[function as usize].functions.as_slice()) {
            return Ok(false);
        }
        self.order.push(function)?;
        self.placed[function as usize] = true;
        Ok(true)
    }

    /// Goes over all functions once. Answers whether one was placed.
    fn round(&mut self, calls: &[Callees], needed: &[bool]) -> Result<bool, AllocError>
        requires placing { IsPlacing calls.now needed.now self.old }
        requires few { length calls.now < 2 ^ 32 }
        ensures placing { OnOk result (IsPlacing calls.now needed.now self.new) }
        ensures grows { IfOk result (λ grew. Grows self.old.placed.items self.new.placed.items grew) }
        ensures stuck { IfOk result (λ grew. grew ≡ false → IsStuckBelow calls.now needed.now self.new (length calls.now)) }
    {
        let mut grew = false;
        for function in 0..calls.len() as u32 {
            if self.place(calls, needed, function)? {
                grew = true;
            }
        }
        Ok(grew)
    }
}

/// Why functions have no order.
#[derive(Clone, Copy, Debug, PartialEq, Eq)]
pub enum OrderStop {
    /// A needed function names itself, at once or through others, or one that is not in the table.
    Cycle,
    Memory,
}

/// Places needed functions until no more can be placed.
fn place_all(alloc: Global, calls: &[Callees], needed: &[bool]) -> Result<Placing, AllocError>
    requires few { length calls.now < 2 ^ 32 }
    ensures placing { IfOk result (λ placing. IsPlacing calls.now needed.now placing) }
    ensures stuck { IfOk result (λ placing. IsStuckBelow calls.now needed.now placing (length calls.now)) }
{
    let mut placing = Placing::new(alloc, calls.len())?;
    let mut grew = true;
    while grew {
        grew = placing.round(calls, needed)?;
    }
    Ok(placing)
}

/// An order of the functions of a table that are needed: the main one and those that needed ones name. Each stands
/// behind those that it names.
pub fn order(alloc: Global, calls: &[Callees], main: u32) -> Result<Vec<u32>, OrderStop>
    requires few { length calls.now < 2 ^ 32 }
    requires main { main < length calls.now }
    ensures { MatchResult result (λ order. IsOrder calls.now main order.items) (StopsBy calls.now main) }
{
    let needed = match needed(alloc, calls, main) {
        Ok(needed) => needed,
        Err(_) => return Err(OrderStop::Memory),
    };
    let placing = match place_all(alloc, calls, needed.as_slice()) {
        Ok(placing) => placing,
        Err(_) => return Err(OrderStop::Memory),
    };
    if placing.is_placed(main) {
        Ok(placing.order)
    } else {
        Err(OrderStop::Cycle)
    }
}
