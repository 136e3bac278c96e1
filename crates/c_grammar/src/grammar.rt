ghost use Rattle.std.specs.Prelude.{◌≡◌, IfOk};
ghost use Rattle.ll_core.specs.ListedSets.{AreWellListed, AreWellListedRows};
ghost use Rattle.c_grammar.specs.Lists.{lists};

use crate::tables::{PRODUCTIONS, ROWS};
use ll_core::{Grammar, GrammarStop, Production, Row, well_listed_sets_are_true};
use std::alloc::Global;

/// The grammar of the tables.
pub fn c_grammar(alloc: Global) -> Result<Grammar<234, 1328>, GrammarStop>
    ensures { IfOk result (λ grammar. grammar ≡ PRODUCTIONS) }
{
    well_listed_sets_are_true();
    lists_are_right();
    rows_are_right();
    match Grammar::new(alloc, *productions(), *rows())? {
        Some(grammar) => Ok(grammar),
        None => unreachable!(),
    }
}

fn lists_are_right()
    ensures { AreWellListed PRODUCTIONS lists }
{}

fn rows_are_right()
    ensures { AreWellListedRows PRODUCTIONS lists ROWS }
{}

pub(crate) fn productions() -> &'static [Production; 234]
    ensures { result.now ≡ PRODUCTIONS }
{
    &PRODUCTIONS
}

fn rows() -> &'static [Row; 1328]
    ensures { result.now ≡ ROWS }
{
    &ROWS
}
