ghost use Rattle.std.specs.Prelude.{◌≡◌, ◌++◌, ◌∷◌, [], OnOk};
ghost use Rattle.c_visibility.specs.Spelling.{texts};
ghost use Rattle.c_visibility.specs.declared.spelled.Spelled.TheVariants.{Declare};
ghost use Rattle.c_scope.specs.Faults.{text_at, fault, faults_by, placed_faults};

use c_faults::{Fault, FaultName};
use c_identifiers::Role;
use c_visibility::{Facts, Seen, Spelled, Spot, is_second, mixes};
use indexmap::IndexSet;
use misra_base::Name;
use std::alloc::{AllocError, Global};

/// The text of the name with the number.
#[tactic(auto, using(crate::proofs::Tables::text_in))]
fn text_at(names: &IndexSet<Vec<u8>>, name: usize) -> &[u8]
    ensures { result.now ≡ text_at (texts names.now) name }
{
    match names.get_index(name) {
        Some(text) => text.as_slice(),
        None => b"",
    }
}

/// Adds a fault at a word.
pub(crate) fn add_fault(
    alloc: Global,
    faults: &mut Vec<Fault>,
    names: &IndexSet<Vec<u8>>,
    code: u8,
    word: Spot,
) -> Result<(), AllocError>
    ensures { OnOk result (faults.new.items ≡ faults.old.items ++ fault code (texts names.now) word ∷ []) }
{
    let name = Name::from_bytes(alloc, text_at(names, word.name))?;
    faults.push(Fault {
        place: word.place,
        code,
        name: FaultName::Text(name),
    })?;
    Ok(())
}

/// The faults that stand where they are seen: what refers to nothing, a second declaration, and one of a reserved name.
pub(crate) fn add_placed(
    alloc: Global,
    faults: &mut Vec<Fault>,
    names: &IndexSet<Vec<u8>>,
    all: &[Seen],
) -> Result<(), AllocError>
    ensures { OnOk result (faults.new.items ≡ faults.old.items ++ placed_faults (texts names.now) all.now) }
{
    for seen in all {
        add_at(alloc, faults, names, *seen)?;
    }
    Ok(())
}

fn add_at(
    alloc: Global,
    faults: &mut Vec<Fault>,
    names: &IndexSet<Vec<u8>>,
    seen: Seen,
) -> Result<(), AllocError>
    ensures { OnOk result (faults.new.items ≡ faults.old.items ++ faults_by (texts names.now) seen seen.event) }
{
    match seen.event {
        Spelled::Use { word, .. } if seen.known.is_none() => add_fault(
            alloc, faults, names, 9, word,
        ),
        Spelled::Declare { role, facts, word } => {
            add_declared(alloc, faults, names, role, facts, word, seen)
        }
        _ => Ok(()),
    }
}

fn add_declared(
    alloc: Global,
    faults: &mut Vec<Fault>,
    names: &IndexSet<Vec<u8>>,
    role: Role,
    facts: Facts,
    word: Spot,
    seen: Seen,
) -> Result<(), AllocError>
    ensures { OnOk result (faults.new.items ≡ faults.old.items ++ faults_by (texts names.now) seen (Declare role facts word)) }
{
    if is_second(role, seen.known) || mixes(role, seen.linked) {
        add_fault(alloc, faults, names, 10, word)?;
    }
    if facts.is_reserved {
        add_fault(alloc, faults, names, 11, word)?;
    }
    Ok(())
}
