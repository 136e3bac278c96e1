//! A client of the parser: a grammar of statements and expressions, whose tables are shown to be right
//! by computation, so that there always is a grammar. Its tests compare answers over small grammars
//! with those that the definitions give.

#![tactic(auto)]

ghost use Rattle.std.specs.Prelude.{◌≡◌, IfOk};
ghost use Rattle.ll_core.specs.ListedSets.{AreWellListed, AreWellListedRows};
ghost use Rattle.ll_statements.specs.Lists.{lists};

mod tables;
#[cfg(test)]
mod tests;

use ll_core::{Grammar, GrammarStop, Production, Row, well_listed_sets_are_true};
use std::alloc::Global;
pub use tables::{PRODUCTIONS, ROWS};

/// The grammar of the tables.
pub fn statements(alloc: Global) -> Result<Grammar<44, 140>, GrammarStop>
    ensures { IfOk result (λ grammar. grammar ≡ PRODUCTIONS) }
{
    well_listed_sets_are_true();
    lists_are_right();
    rows_are_right();
    match Grammar::new(alloc, *productions(), *rows())? {
        Some(grammar) => Ok(grammar),
        None => unreachable!(),
    }
}

fn lists_are_right()
    ensures { AreWellListed PRODUCTIONS lists }
{}

fn rows_are_right()
    ensures { AreWellListedRows PRODUCTIONS lists ROWS }
{}

fn productions() -> &'static [Production; 44]
    ensures { result.now ≡ PRODUCTIONS }
{
    &PRODUCTIONS
}

fn rows() -> &'static [Row; 140]
    ensures { result.now ≡ ROWS }
{
    &ROWS
}
