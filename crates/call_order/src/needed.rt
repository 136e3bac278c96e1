//! Which functions are needed: the main one, and those that needed ones name. They are marked in rounds.
ghost use Rattle.std.specs.Prelude.{◌≡◌, ◌<◌, ◌⊎◌, ◌^◌, ℕ, false, slice_index_or, length, IfOk};
ghost use Rattle.call_order.specs.Marks.{IsMarked, IsMore, IsWith, AllNeeded, IsClosedBelow, AreNeeded};
ghost use Rattle.call_order.specs.Orders.{Names};

use crate::calls::Callees;
use std::alloc::{AllocError, Global};

/// Whether a function is marked.
pub(crate) fn is_marked(marks: &[bool], function: u32) -> bool
    ensures { result ≡ slice_index_or marks.now function false }
{
    if (function as usize) < marks.len() {
        marks[function as usize]
    } else {
        false
    }
}

/// Marks a function of the table. Answers whether it was not marked before.
fn mark(marks: &mut Vec<bool>, function: u32) -> bool
    ensures more { IsMore marks.old.items marks.new.items result }
    ensures here { function < length marks.old.items → IsMarked marks.new.items function }
    ensures only { (other : ℕ) → IsMarked marks.new.items other → IsMarked marks.old.items other ⊎ (function ≡ other) }
{
    let place = function as usize;
    if place < marks.len() && !marks[place] {
        marks[place] = true;
        true
    } else {
        false
    }
}

/// Marks these functions. Answers whether one was not marked before.
fn mark_all(marks: &mut Vec<bool>, functions: &[u32]) -> bool
    ensures more { IsMore marks.old.items marks.new.items result }
    ensures with { IsWith marks.old.items marks.new.items functions.now }
{
    let mut grew = false;
    for function in functions {
        if mark(marks, *function) {
            grew = true;
        }
    }
    grew
}

/// Marks what a function names, if that is marked. Answers whether something was not marked before.
fn spread(marks: &mut Vec<bool>, calls: &[Callees], function: u32) -> bool
    requires { function < length calls.now }
    ensures more { IsMore marks.old.items marks.new.items result }
    ensures needed { (main : ℕ) → AllNeeded calls.now main marks.old.items → AllNeeded calls.now main marks.new.items }
    ensures closed { (callee : ℕ) → IsMarked marks.old.items function → Names calls.now function callee → callee < length marks.old.items → IsMarked marks.new.items callee }
{
    if is_marked(marks.as_slice(), function) {
        mark_all(marks, calls[function as usize].functions.as_slice())
    } else {
        false
    }
}

/// Goes over all functions once. Answers whether something was not marked before.
fn round(marks: &mut Vec<bool>, calls: &[Callees]) -> bool
    requires { length calls.now < 2 ^ 32 }
    ensures more { IsMore marks.old.items marks.new.items result }
    ensures needed { (main : ℕ) → AllNeeded calls.now main marks.old.items → AllNeeded calls.now main marks.new.items }
    ensures closed { result ≡ false → IsClosedBelow calls.now marks.new.items (length calls.now) }
{
    let mut grew = false;
    for function in 0..calls.len() as u32 {
        if spread(marks, calls, function) {
            grew = true;
        }
    }
    grew
}

/// Marks of so many functions, none of which is marked.
pub(crate) fn none_marked(alloc: Global, count: usize) -> Result<Vec<bool>, AllocError>
    requires { count < 2 ^ 32 }
    ensures long { IfOk result (λ marks. length marks.items ≡ count) }
    ensures none { IfOk result (λ marks. (function : ℕ) → slice_index_or marks.items function false ≡ false) }
{
    let marks = vec![in alloc; false; count]?;
    Ok(marks)
}

/// For each function whether it is needed.
pub(crate) fn needed(alloc: Global, calls: &[Callees], main: u32) -> Result<Vec<bool>, AllocError>
    requires few { length calls.now < 2 ^ 32 }
    requires main { main < length calls.now }
    ensures { IfOk result (λ marks. AreNeeded calls.now main marks.items) }
{
    let mut marks = none_marked(alloc, calls.len())?;
    let mut grew = mark(&mut marks, main);
    while grew {
        grew = round(&mut marks, calls);
    }
    Ok(marks)
}
