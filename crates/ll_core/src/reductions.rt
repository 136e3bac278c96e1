ghost use Rattle.std.specs.Prelude.{◌≡◌, ◌≤◌, ◌++◌, reverse, Some, OnOk, IfOk};
ghost use Rattle.ll_core.specs.Trees.{Forest, right_of, leftmost};
ghost use Rattle.ll_core.specs.Sentences.{IsDerivation};
ghost use Rattle.ll_core.specs.Postorder.{IsPostorder, pending_of};

use crate::derivation::Derivation;
use crate::grammar::Grammar;
use crate::production::Production;
use std::alloc::{AllocError, Global};

/// A step that makes a derivation tree from its leaves up.
#[derive(Clone, Copy, Debug, PartialEq, Eq)]
pub enum Event {
    /// The next token is a tree.
    Shift,
    /// The last trees, one for each symbol of the right side of the production with this number, become one.
    Reduce(u16),
}

/// What is still to be done.
#[derive(Clone, Copy, Debug, PartialEq, Eq)]
pub(crate) enum Pending {
    /// The tree of this symbol.
    Symbol(u16),
    /// The step that closes the tree of this production.
    Close(u16),
}

/// The steps that make the tree of a derivation from its leaves up, in time in proportion to their
/// number.
pub fn postorder<const P: usize, const S: usize>(
    alloc: Global,
    grammar: &Grammar<P, S>,
    derivation: &Derivation,
) -> Result<Vec<Event>, AllocError>
    requires { (tree : Forest) × IsDerivation grammar.now tree × (leftmost tree ≡ derivation.now) }
    ensures { IfOk result (λ events. IsPostorder grammar.now derivation.now events.items) }
{
    let numbers = derivation.productions();
    let mut events = Vec::new(alloc);
    let mut stack = Vec::new(alloc);
    stack.push(Pending::Symbol(grammar.start()))?;
    let mut i = 0;
    while let Some(pending) = stack.pop() {
        match pending {
            Pending::Close(number) => events.push(Event::Reduce(number))?,
            Pending::Symbol(symbol) if grammar.is_left(symbol) => {
                let number = numbers[i];
                i += 1;
                stack.push(Pending::Close(number))?;
                push_right(&mut stack, &grammar.production(number))?;
            }
            Pending::Symbol(_) => events.push(Event::Shift)?,
        }
    }
    Ok(events)
}

fn push_right(stack: &mut Vec<Pending>, production: &Production) -> Result<(), AllocError>
    requires { production.now.length ≤ 12 }
    ensures { OnOk result (reverse stack.new.items ≡ pending_of (right_of production.now) ++ reverse stack.old.items) }
{
    for i in (0..usize::from(production.length)).rev() {
        stack.push(Pending::Symbol(production.right[i]))?;
    }
    Ok(())
}
