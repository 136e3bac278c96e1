ghost use Rattle.std.specs.Prelude.{◌≡◌};
ghost use Rattle.c_scope.specs.Things.{bound_or, linked_or, entity_of, stands, is_first, is_main};

use c_identifiers::Role;
use c_names::Kind;
use c_visibility::{Binding, Facts, Linked, Seen, Spelled, declares, is_refused};

fn bound_or(number: usize, known: Option<Binding>) -> usize
    ensures { result ≡ bound_or number known }
{
    match known {
        Some(binding) => binding.number,
        None => number,
    }
}

fn linked_or(number: usize, first: Option<Linked>) -> usize
    ensures { result ≡ linked_or number first }
{
    match first {
        Some(first) => first.number,
        None => number,
    }
}

/// The number of the first declaration of the same thing: with linkage of all in the text, and else of those in its scope.
pub(crate) fn entity_of(role: Role, seen: Seen) -> usize
    ensures { result ≡ entity_of role seen }
{
    if role.linkage.is_some() {
        linked_or(seen.number, seen.linked)
    } else {
        bound_or(seen.number, seen.known)
    }
}

/// Whether a declaration declares something.
pub(crate) fn stands(role: Role, facts: Facts, seen: Seen) -> bool
    ensures { result ≡ stands role facts seen }
{
    declares(role, is_refused(role, facts, seen.linked), seen.known)
}

/// Whether a declaration is the first of its thing.
pub(crate) fn is_first(role: Role, facts: Facts, seen: Seen) -> bool
    ensures { result ≡ is_first role facts seen }
{
    stands(role, facts, seen) && entity_of(role, seen) == seen.number
}

/// Whether this is `main` with its body.
pub(crate) fn is_main(seen: Seen) -> bool
    ensures { result ≡ is_main seen }
{
    match seen.event {
        Spelled::Declare { role, facts, .. } => {
            role.kind == Kind::Function
                && role.defines
                && facts.is_main
                && stands(role, facts, seen)
        }
        _ => false,
    }
}
