ghost use Rattle.std.specs.Prelude.{◌≡◌, ◌∷◌, ◌==◌, [], ℕ, List, if◌then◌else◌, nat_eq, OnOk};
ghost use Rattle.indexmap.specs.IndexMap.{get};
ghost use Rattle.c_visibility.specs.declared.spelled.Spelled.{Spelled as TheSpelled};
ghost use Rattle.c_visibility.specs.Scopes.{mixes, is_refused, linked_by, linked_to, declarations, known_at};
ghost use Rattle.c_visibility.specs.Knowledge.{Links};

use crate::scopes::{Binding, declares};
use crate::spelled::{Facts, Spelled};
use c_identifiers::Role;
use c_names::Kind;
use indexmap::IndexMap;
use std::alloc::{AllocError, Global};

/// The first declaration of a name that has linkage, in whatever scope.
#[derive(Clone, Copy, Debug, PartialEq, Eq)]
pub struct Linked {
    pub number: usize,
    pub kind: Kind,
}

/// The first declarations with linkage, by their names.
#[derive(Drop)]
pub(crate) struct Linkages {
    pub(crate) firsts: IndexMap<usize, Linked>,
}

impl Linkages {
    pub(crate) fn new(alloc: Global) -> Linkages
        ensures { Links result [] }
    {
        Linkages {
            firsts: IndexMap::new(alloc),
        }
    }

    /// Before a declaration, the first one of its name that has linkage.
    pub(crate) fn first(&self, event: Spelled) -> Option<Linked>
        ensures { (before : List TheSpelled) → Links self.now before → result ≡ linked_to before event }
    {
        match event {
            Spelled::Declare { word, .. } => self.firsts.get(&word.name).copied(),
            _ => None,
        }
    }

    /// Goes past an event, of whose identifier this is known.
    pub(crate) fn pass(
        &mut self,
        number: usize,
        event: Spelled,
        known: Option<Binding>,
    ) -> Result<(), AllocError>
        ensures { (before : List TheSpelled) → Links self.old before → number ≡ declarations before → known ≡ known_at before event → OnOk result (Links self.new (event ∷ before)) }
    {
        if let Spelled::Declare { role, facts, word } = event {
            let first = self.first(event);
            let declares = declares(role, is_refused(role, facts, first), known);
            self.link(number, role, declares, word.name)?;
        }
        Ok(())
    }

    /// Notes a declaration of a name, where it is the first with linkage.
    fn link(
        &mut self,
        number: usize,
        role: Role,
        declares: bool,
        name: usize,
    ) -> Result<(), AllocError>
        ensures { OnOk result ((other : ℕ) → get nat_eq self.new.firsts other ≡ (if name == other then linked_by number role declares (get nat_eq self.old.firsts name) else get nat_eq self.old.firsts other)) }
    {
        let first = self.firsts.get(&name).copied();
        if let Some(linked) = linked_by(number, role, declares, first) {
            self.firsts.insert(name, linked)?;
        }
        Ok(())
    }
}

/// Whether a declaration makes an object of a function, or a function of an object.
pub fn mixes(role: Role, first: Option<Linked>) -> bool
    ensures { result ≡ mixes role first }
{
    match first {
        Some(first) => role.linkage.is_some() && first.kind != role.kind,
        None => false,
    }
}

/// Whether a declaration declares nothing, whatever its scope has.
pub fn is_refused(role: Role, facts: Facts, first: Option<Linked>) -> bool
    ensures { result ≡ is_refused role facts first }
{
    facts.is_reserved || mixes(role, first)
}

fn linked_by(number: usize, role: Role, declares: bool, first: Option<Linked>) -> Option<Linked>
    ensures { result ≡ linked_by number role declares first }
{
    match first {
        Some(first) => Some(first),
        None if role.linkage.is_some() && declares => Some(Linked {
            number,
            kind: role.kind,
        }),
        None => None,
    }
}
