ghost use Rattle.std.specs.Prelude.{◌≡◌, ◌++◌, OnOk, IfOk};
ghost use Rattle.indexmap.specs.IndexMap.{get};
ghost use Rattle.misra_base.specs.declared.place.Place.{Place as ThePlace};
ghost use Rattle.c_names.specs.References.{same_place};
ghost use Rattle.c_scope.specs.Names.{declaration_of, declarations_by, declarations_of, number_by, number_at, or_else};

use crate::things::entity_of;
use c_identifiers::Role;
use c_names::Declaration;
use c_visibility::{Seen, Spelled, Spot};
use indexmap::IndexMap;
use misra_base::Place;
use std::alloc::{AllocError, Global};

fn declaration_of(seen: Seen, role: Role, word: Spot) -> Declaration
    ensures { result ≡ declaration_of seen role word }
{
    Declaration {
        name: word.name,
        space: role.space,
        kind: role.kind,
        storage: role.storage,
        linkage: role.linkage,
        is_definition: role.defines,
        scope: seen.scope,
        place: word.place,
        entity: entity_of(role, seen),
    }
}

/// The declarations of a text, in its order.
pub(crate) fn declarations_of(alloc: Global, all: &[Seen]) -> Result<Vec<Declaration>, AllocError>
    ensures { IfOk result (λ declarations. declarations.items ≡ declarations_of all.now) }
{
    let mut declarations = Vec::new(alloc);
    for seen in all {
        add_declaration(&mut declarations, *seen)?;
    }
    Ok(declarations)
}

fn add_declaration(declarations: &mut Vec<Declaration>, seen: Seen) -> Result<(), AllocError>
    ensures { OnOk result (declarations.new.items ≡ declarations.old.items ++ declarations_by seen seen.event) }
{
    if let Spelled::Declare { role, word, .. } = seen.event {
        declarations.push(declaration_of(seen, role, word))?;
    }
    Ok(())
}

/// For the place of each name, the number of the declaration that stands there, or that the use there refers to.
#[tactic(auto, using(crate::proofs::Tables::or_else_in_turn, crate::proofs::Tables::or_else_none))]
pub(crate) fn references_of(
    alloc: Global,
    all: &[Seen],
) -> Result<IndexMap<Place, usize>, AllocError>
    ensures { IfOk result (λ references. (place : ThePlace) → get same_place references place ≡ number_at place all.now) }
{
    let mut references = IndexMap::new(alloc);
    for seen in all {
        add_reference(&mut references, *seen)?;
    }
    Ok(references)
}

#[tactic(auto, using(crate::proofs::Tables::or_else_there, crate::proofs::Tables::or_else_nowhere))]
fn add_reference(references: &mut IndexMap<Place, usize>, seen: Seen) -> Result<(), AllocError>
    ensures { OnOk result ((place : ThePlace) → get same_place references.new place ≡ or_else (number_by place seen seen.event) (get same_place references.old place)) }
{
    match (seen.event, seen.known) {
        (Spelled::Declare { word, .. }, _) => {
            references.insert(word.place, seen.number)?;
        }
        (Spelled::Use { word, .. }, Some(binding)) => {
            references.insert(word.place, binding.number)?;
        }
        _ => {}
    }
    Ok(())
}
