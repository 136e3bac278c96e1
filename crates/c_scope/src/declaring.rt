ghost use Rattle.std.specs.Prelude.{◌≡◌, [], IfOk, IfErr};
ghost use Rattle.c_tree.specs.StatementViews.{tree_view};
ghost use Rattle.c_tree.specs.Statements.{TreeData};
ghost use Rattle.c_identifiers.specs.Units.{events_of};
ghost use Rattle.c_faults.specs.Faults.{StopsBy};
ghost use Rattle.c_visibility.specs.Spelling.{texts, texts_of};
ghost use Rattle.c_visibility.specs.Text.{spelled_by};
ghost use Rattle.c_visibility.specs.Seen.{seen_of};
ghost use Rattle.c_scope.specs.Faults.{shared_faults, program_faults, faults_of, unit_faults_of};
ghost use Rattle.c_scope.specs.Names.{AreNamesOf};
ghost use Rattle.c_scope.specs.Readings.{IsRead};

use crate::definitions::{add_main, add_undefined};
use crate::limits::add_limit;
use crate::naming::{declarations_of, references_of};
use crate::placed::add_placed;
use c_faults::{Fault, Limit, refuse};
use c_identifiers::events;
use c_names::Names;
use c_tree::Tree;
use c_visibility::{Seen, seen_of, spelled_by, texts_of};
use indexmap::IndexSet;
use misra_base::{CheckStop, Place};
use std::alloc::{AllocError, Global};

/// The most functions that a text may declare.
const FUNCTIONS: usize = 512;
/// The most objects of static storage that a text may declare.
const OBJECTS: usize = 2048;

/// A text with its names, and what each of them refers to.
#[derive(Drop)]
struct Reading {
    names: IndexSet<Vec<u8>>,
    all: Vec<Seen>,
}

/// The names of a program, or the first fault of them: of U9 to U13 the one with the least place, at one place the one with
/// the least code, and of the limits that one name passes that on functions first. `CheckStop::Memory` comes for want of
/// memory alone.
pub fn declare(alloc: Global, tree: &Tree) -> Result<Names, CheckStop>
    ensures names { IfOk result (AreNamesOf (tree_view tree.now)) }
    ensures supported { IfOk result (λ _. faults_of (tree_view tree.now) ≡ []) }
    ensures refused { IfErr result (StopsBy (faults_of (tree_view tree.now))) }
{
    let read = read(alloc, tree)?;
    let faults = program_faults(alloc, &read, tree.end)?;
    refuse(alloc, &faults)?;
    Ok(names(alloc, read)?)
}

/// The names of one unit of a program: as `declare`, but what it declares may be defined elsewhere, and so may `main`.
pub fn declare_unit(alloc: Global, tree: &Tree) -> Result<Names, CheckStop>
    ensures names { IfOk result (AreNamesOf (tree_view tree.now)) }
    ensures supported { IfOk result (λ _. unit_faults_of (tree_view tree.now) ≡ []) }
    ensures refused { IfErr result (StopsBy (unit_faults_of (tree_view tree.now))) }
{
    let read = read(alloc, tree)?;
    let faults = shared_faults(alloc, &read)?;
    refuse(alloc, &faults)?;
    Ok(names(alloc, read)?)
}

fn read(alloc: Global, tree: &Tree) -> Result<Reading, AllocError>
    ensures { IfOk result (IsRead (tree_view tree.now)) }
{
    let events = events(alloc, tree)?;
    let names = texts_of(alloc, &events)?;
    let spelled = spelled_by(alloc, &names, &events)?;
    let all = seen_of(alloc, &spelled)?;
    Ok(Reading { names, all })
}

fn shared_faults(alloc: Global, read: &Reading) -> Result<Vec<Fault>, AllocError>
    ensures { IfOk result (λ faults. faults.items ≡ shared_faults (texts read.now.names) read.now.all.items) }
{
    let mut faults = Vec::new(alloc);
    add_placed(alloc, &mut faults, &read.names, &read.all)?;
    add_limit(alloc, &mut faults, Limit::Functions, FUNCTIONS, &read.all)?;
    add_limit(alloc, &mut faults, Limit::Objects, OBJECTS, &read.all)?;
    Ok(faults)
}

fn program_faults(alloc: Global, read: &Reading, end: Place) -> Result<Vec<Fault>, AllocError>
    ensures { IfOk result (λ faults. faults.items ≡ program_faults (texts read.now.names) end read.now.all.items) }
{
    let mut faults = shared_faults(alloc, read)?;
    add_undefined(alloc, &mut faults, &read.names, &read.all)?;
    add_main(alloc, &mut faults, end, &read.all)?;
    Ok(faults)
}

fn names(alloc: Global, read: Reading) -> Result<Names, AllocError>
    ensures { (tree : TreeData) → IsRead tree read → IfOk result (AreNamesOf tree) }
{
    let Reading { names, all } = read;
    Ok(Names {
        spellings: names,
        declarations: declarations_of(alloc, &all)?,
        references: references_of(alloc, &all)?,
    })
}
