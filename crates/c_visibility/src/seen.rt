ghost use Rattle.std.specs.Prelude.{◌≡◌, ◌∷◌, ◌≤◌, ◌<◌, ◌^◌, ◌+◌, [], List, OnOk, IfOk};
ghost use Rattle.c_visibility.specs.declared.spelled.Spelled.{Spelled as TheSpelled};
ghost use Rattle.c_visibility.specs.Seen.{seen_at, seen_of};
ghost use Rattle.c_visibility.specs.Scopes.{declarations};
ghost use Rattle.c_visibility.specs.Knowledge.{Follows};

use crate::linkages::{Linkages, Linked};
use crate::nesting::Nesting;
use crate::scopes::{Binding, Scopes};
use crate::spelled::Spelled;
use std::alloc::{AllocError, Global};

/// What an event speaks of.
#[derive(Clone, Copy, Debug, PartialEq, Eq)]
pub struct Seen {
    pub event: Spelled,
    /// How many declarations stand before. That of a declaration is its own number.
    pub number: usize,
    /// Of a use, what the innermost scope knows that knows its identifier. Of a declaration, what its own scope knows.
    pub known: Option<Binding>,
    /// Of a declaration, the first one of its name before it that has linkage.
    pub linked: Option<Linked>,
    /// The scope in which it declares.
    pub scope: usize,
}

/// What is known behind some events.
#[derive(Drop)]
pub(crate) struct Walk {
    pub(crate) scopes: Scopes,
    pub(crate) linkages: Linkages,
    pub(crate) nesting: Nesting,
    pub(crate) number: usize,
}

impl Walk {
    fn new(alloc: Global) -> Result<Walk, AllocError>
        ensures known { IfOk result (λ walk. Follows walk []) }
        ensures few { IfOk result (λ walk. walk.number ≡ 0) }
        ensures few_scopes { IfOk result (λ walk. walk.nesting.opened ≡ 0) }
    {
        Ok(Walk {
            scopes: Scopes::new(alloc)?,
            linkages: Linkages::new(alloc),
            nesting: Nesting::new(alloc)?,
            number: 0,
        })
    }

    /// Goes past an event, and answers what it speaks of.
    fn pass(&mut self, alloc: Global, event: Spelled) -> Result<Seen, AllocError>
        requires number { self.now.number < 2 ^ 63 }
        requires scopes { self.now.nesting.opened < 2 ^ 63 }
        ensures known { (before : List TheSpelled) → Follows self.old before → OnOk result (Follows self.new (event ∷ before)) }
        ensures seen { (before : List TheSpelled) → Follows self.old before → IfOk result (λ seen. seen ≡ seen_at before event) }
        ensures few { OnOk result (self.new.number ≤ self.old.number + 1) }
        ensures few_scopes { OnOk result (self.new.nesting.opened ≤ self.old.nesting.opened + 1) }
    {
        let number = self.number;
        let linked = self.linkages.first(event);
        let known = self.scopes.pass(alloc, number, event, linked)?;
        self.linkages.pass(number, event, known)?;
        let scope = self.nesting.pass(event)?;
        self.number += declared(event);
        Ok(Seen {
            event,
            number,
            known,
            linked,
            scope,
        })
    }
}

/// How many declarations an event is.
fn declared(event: Spelled) -> usize
    ensures counts { (before : List TheSpelled) → result + declarations before ≡ declarations (event ∷ before) }
    ensures few { result ≤ 1 }
{
    match event {
        Spelled::Declare { .. } => 1,
        _ => 0,
    }
}

/// What each event of a text speaks of.
pub fn seen_of(alloc: Global, events: &[Spelled]) -> Result<Vec<Seen>, AllocError>
    ensures { IfOk result (λ all. all.items ≡ seen_of events.now) }
{
    let mut walk = Walk::new(alloc)?;
    let mut all = Vec::new(alloc);
    for event in events {
        let seen = walk.pass(alloc, *event)?;
        all.push(seen)?;
    }
    Ok(all)
}
