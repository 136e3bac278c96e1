ghost use Rattle.std.specs.Prelude.{◌≡◌, ◌++◌, ◌||◌, ℕ, List, nat_eq, OnOk, IfOk};
ghost use Rattle.std.specs.List.{list_any};
ghost use Rattle.indexmap.specs.IndexSet.{contains};
ghost use Rattle.c_visibility.specs.declared.seen.Seen.{Seen as TheSeen};
ghost use Rattle.c_visibility.specs.Spelling.{texts};
ghost use Rattle.c_scope.specs.Things.{is_number, defines, calls, is_defined, is_called, is_main};
ghost use Rattle.c_scope.specs.Faults.{is_wanted, undefined_by, undefined_faults, main_faults};

use crate::placed::add_fault;
use crate::things::{entity_of, is_first, is_main, stands};
use c_faults::{Fault, FaultName};
use c_identifiers::{Role, Usage};
use c_names::Kind;
use c_visibility::{Facts, Seen, Spelled};
use indexmap::IndexSet;
use misra_base::{Name, Place};
use std::alloc::{AllocError, Global};

/// The things that are defined, by the numbers of their first declarations.
#[tactic(auto, using(crate::proofs::Tables::any_in_turn))]
fn defined(alloc: Global, all: &[Seen]) -> Result<IndexSet<usize>, AllocError>
    ensures { IfOk result (λ things. (thing : ℕ) → contains nat_eq things thing ≡ is_defined all.now thing) }
{
    let mut things = IndexSet::new(alloc);
    for seen in all {
        add_defined(&mut things, *seen)?;
    }
    Ok(things)
}

#[tactic(auto, using(crate::proofs::Tables::any_put, crate::proofs::Tables::any_none))]
fn add_defined(things: &mut IndexSet<usize>, seen: Seen) -> Result<(), AllocError>
    ensures { OnOk result ((thing : ℕ) → contains nat_eq things.new thing ≡ (contains nat_eq things.old thing || defines thing seen)) }
{
    if let Some(thing) = defined_thing(seen) {
        things.insert(thing)?;
    }
    Ok(())
}

fn defined_thing(seen: Seen) -> Option<usize>
    ensures { (thing : ℕ) → defines thing seen ≡ is_number thing result }
{
    match seen.event {
        Spelled::Declare { role, facts, .. } if role.defines && stands(role, facts, seen) => {
            Some(entity_of(role, seen))
        }
        _ => None,
    }
}

/// The functions that are called, or that a thread is to run, by the numbers of their first declarations.
#[tactic(auto, using(crate::proofs::Tables::any_in_turn))]
fn called(alloc: Global, all: &[Seen]) -> Result<IndexSet<usize>, AllocError>
    ensures { IfOk result (λ things. (thing : ℕ) → contains nat_eq things thing ≡ is_called all.now thing) }
{
    let mut things = IndexSet::new(alloc);
    for seen in all {
        add_called(&mut things, *seen)?;
    }
    Ok(things)
}

#[tactic(auto, using(crate::proofs::Tables::any_put, crate::proofs::Tables::any_none))]
fn add_called(things: &mut IndexSet<usize>, seen: Seen) -> Result<(), AllocError>
    ensures { OnOk result ((thing : ℕ) → contains nat_eq things.new thing ≡ (contains nat_eq things.old thing || calls thing seen)) }
{
    if let Some(thing) = called_thing(seen) {
        things.insert(thing)?;
    }
    Ok(())
}

fn called_thing(seen: Seen) -> Option<usize>
    ensures { (thing : ℕ) → calls thing seen ≡ is_number thing result }
{
    match (seen.event, seen.known) {
        (
            Spelled::Use {
                usage: Usage::Called,
                ..
            },
            Some(binding),
        ) => Some(binding.number),
        _ => None,
    }
}

/// Whether what an event declares is to be defined: an object with linkage, and a function that is called, where its
/// types ask for it.
fn is_wanted(called: &IndexSet<usize>, role: Role, facts: Facts, seen: Seen) -> bool
    ensures { (all : List TheSeen) → ((thing : ℕ) → contains nat_eq called.now thing ≡ is_called all thing) → result ≡ is_wanted all role facts seen }
{
    (role.kind == Kind::Object && role.linkage.is_some())
        || (role.kind == Kind::Function && facts.needs_body && called.contains(&seen.number))
}

/// What has no definition and is to have one.
pub(crate) fn add_undefined(
    alloc: Global,
    faults: &mut Vec<Fault>,
    names: &IndexSet<Vec<u8>>,
    all: &[Seen],
) -> Result<(), AllocError>
    ensures { OnOk result (faults.new.items ≡ faults.old.items ++ undefined_faults (texts names.now) all.now all.now) }
{
    let defined = defined(alloc, all)?;
    let called = called(alloc, all)?;
    for seen in all {
        add_undefined_at(alloc, faults, names, &defined, &called, *seen)?;
    }
    Ok(())
}

fn add_undefined_at(
    alloc: Global,
    faults: &mut Vec<Fault>,
    names: &IndexSet<Vec<u8>>,
    defined: &IndexSet<usize>,
    called: &IndexSet<usize>,
    seen: Seen,
) -> Result<(), AllocError>
    ensures { (all : List TheSeen) → ((thing : ℕ) → contains nat_eq defined.now thing ≡ is_defined all thing) → ((thing : ℕ) → contains nat_eq called.now thing ≡ is_called all thing) → OnOk result (faults.new.items ≡ faults.old.items ++ undefined_by (texts names.now) all seen seen.event) }
{
    match seen.event {
        Spelled::Declare { role, facts, word }
            if is_first(role, facts, seen)
                && !defined.contains(&seen.number)
                && is_wanted(called, role, facts, seen) => {
            add_fault(alloc, faults, names, 12, word)
        }
        _ => Ok(()),
    }
}

fn has_main(all: &[Seen]) -> bool
    ensures { result ≡ list_any is_main all.now }
{
    for seen in all {
        if is_main(*seen) {
            return true;
        }
    }
    false
}

/// A program has a `main` with a body (C11 5.1.2.2.1).
pub(crate) fn add_main(
    alloc: Global,
    faults: &mut Vec<Fault>,
    end: Place,
    all: &[Seen],
) -> Result<(), AllocError>
    ensures { OnOk result (faults.new.items ≡ faults.old.items ++ main_faults end all.now) }
{
    if !has_main(all) {
        let name = Name::from_bytes(alloc, b"main")?;
        faults.push(Fault {
            place: end,
            code: 12,
            name: FaultName::Text(name),
        })?;
    }
    Ok(())
}
