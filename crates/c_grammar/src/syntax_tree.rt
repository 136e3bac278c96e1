ghost use Rattle.std.specs.Prelude.{◌≡◌, ◌≤◌, ◌<◌, ◌∷◌, [], map, All, length, take, drop, reverse, Some, slice_get, IfOk, IfErr, OnOk};
ghost use Rattle.ll_core.specs.Folds.{run_steps, size_in};
ghost use Rattle.c_lexer.specs.Slices.{IsWithin};
ghost use Rattle.c_rawtree.specs.StatementViews.{external_view, tree_view};
ghost use Rattle.c_parts.specs.Kinds;
ghost use Rattle.c_parts.specs.PartViews.{part_view, leaf_view};
ghost use Rattle.c_parts.specs.Reading.{kind_of};
ghost use Rattle.c_grammar.specs.declared.tables.TheConstants.{PRODUCTIONS};
ghost use Rattle.c_grammar.specs.Syntax.{StopsBySyntax};
ghost use Rattle.c_grammar.specs.Trees.{IsTree, IsMade, IsReady, IsRun, node_of, leaf_of_token, leaves_of, stack_view};

use crate::actions::ACTIONS;
use crate::grammar::{c_grammar, productions};
use crate::syntax::derivation;
use c_lexer::Token;
use c_nodes::{Action, part};
use c_parts::{Leaf, Part, Parts};
use c_rawtree::{External, Tree};
use ll_core::{Event, postorder};
use misra_base::CheckStop;
use std::alloc::{AllocError, Global};

/// The tree of the tokens of a text: what their one derivation makes, production by production. Tokens that have
/// none are refused at the first that no translation unit goes on with, as U6 where it is a construct that C has and
/// this subset leaves out, else as U7; or as U8 at the first that is nested deeper than 64.
pub fn tree(alloc: Global, text: &[u8], tokens: &[Token]) -> Result<Tree, CheckStop>
    requires size { length text.now ≤ 262144 }
    requires within { All (IsWithin (length text.now)) tokens.now }
    requires classes { All (λ token. token.class < 80) tokens.now }
    ensures tree { IfOk result (λ t. IsTree text.now tokens.now (tree_view t)) }
    ensures refused { IfErr result (StopsBySyntax PRODUCTIONS text.now tokens.now) }
{
    let grammar = match c_grammar(alloc) {
        Ok(grammar) => grammar,
        Err(_) => return Err(CheckStop::Memory),
    };
    let derivation = derivation(alloc, &grammar, text, tokens)?;
    let events = postorder(alloc, &grammar, &derivation)?;
    Ok(Tree {
        externals: externals(alloc, text, tokens, &events)?,
    })
}

/// The external declarations that the steps make.
fn externals(
    alloc: Global,
    text: &[u8],
    tokens: &[Token],
    events: &[Event],
) -> Result<Vec<External>, AllocError>
    requires within { All (IsWithin (length text.now)) tokens.now }
    requires steps { IsRun events.now (length tokens.now) [] }
    ensures { IfOk result (λ v. IsMade text.now tokens.now events.now (map external_view v.items)) }
{
    let mut parts = Parts::new(alloc);
    parts.put_front(built(alloc, text, tokens, events)?)?;
    Ok(parts.external_part().externals().into_vec())
}

/// What the steps leave on the stack.
fn built<'a>(
    alloc: Global,
    text: &'a [u8],
    tokens: &[Token],
    events: &[Event],
) -> Result<Part<'a>, AllocError>
    requires within { All (IsWithin (length text.now)) tokens.now }
    requires steps { IsRun events.now (length tokens.now) [] }
    ensures kind { IfOk result (λ p. kind_of (part_view p) ≡ Kinds.externals) }
    ensures part { IfOk result (λ p. part_view p ∷ [] ≡ run_steps node_of PRODUCTIONS events.now [] (leaves_of text.now tokens.now)) }
{
    let mut stack = Vec::new(alloc);
    let mut parts = Parts::new(alloc);
    let mut shifted = 0;
    for event in events {
        match event {
            Event::Shift => {
                stack.push(Part::Leaf(leaf(text, tokens[shifted])))?;
                shifted += 1;
            }
            Event::Reduce(number) => {
                let part = reduced(alloc, *number, &mut stack, &mut parts)?;
                stack.push(part)?;
            }
        }
    }
    match stack.pop() {
        Some(part) => Ok(part),
        None => unreachable!(),
    }
}

/// A token as a leaf of the tree.
fn leaf<'a>(text: &'a [u8], token: Token) -> Leaf<'a>
    requires { IsWithin (length text.now) token }
    ensures { leaf_view result ≡ leaf_of_token text.now token }
{
    Leaf {
        place: token.place,
        text: token.text(text),
    }
}

/// What a production makes of the last parts on the stack, which go. `parts` is room for them.
fn reduced<'a>(
    alloc: Global,
    number: u16,
    stack: &mut Vec<Part<'a>>,
    parts: &mut Parts<'a>,
) -> Result<Part<'a>, AllocError>
    requires { IsReady number (stack_view stack.now.items) }
    ensures part { IfOk result (λ p. part_view p ≡ node_of number (reverse (take (size_in PRODUCTIONS number) (stack_view stack.old.items)))) }
    ensures stack { OnOk result (stack_view stack.new.items ≡ drop (size_in PRODUCTIONS number) (stack_view stack.old.items)) }
{
    parts.clear();
    for _ in 0..size_of(number) {
        match stack.pop() {
            Some(part) => parts.put_front(part)?,
            None => unreachable!(),
        }
    }
    part(alloc, action_of(number), parts)
}

/// How many parts a production takes.
fn size_of(number: u16) -> usize
    requires { number < 234 }
    ensures { result ≡ size_in PRODUCTIONS number }
{
    usize::from(productions()[usize::from(number)].length)
}

/// What a production makes.
fn action_of(number: u16) -> Action
    requires { number < 234 }
    ensures { slice_get ACTIONS number ≡ Some result }
{
    actions()[usize::from(number)]
}

fn actions() -> &'static [Action; 234]
    ensures { result.now ≡ ACTIONS }
{
    &ACTIONS
}
