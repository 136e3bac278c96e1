ghost use Rattle.std.specs.Prelude.{◌≡◌, ◌∷◌, ◌≤◌, ◌<◌, ◌^◌, ◌+◌, [], List, reverse, get_or, OnOk, IfOk};
ghost use Rattle.c_visibility.specs.declared.spelled.Spelled.{Spelled as TheSpelled};
ghost use Rattle.c_visibility.specs.Seen.{open_scopes, scope_of};
ghost use Rattle.c_visibility.specs.Knowledge.{Nests};

use crate::spelled::Spelled;
use c_names::Kind;
use std::alloc::{AllocError, Global};

/// The numbers of the scopes that are open, the innermost last, and how many have begun behind the first.
#[derive(Drop)]
pub(crate) struct Nesting {
    pub(crate) scopes: Vec<usize>,
    pub(crate) opened: usize,
}

impl Nesting {
    pub(crate) fn new(alloc: Global) -> Result<Nesting, AllocError>
        ensures known { IfOk result (λ nesting. Nests nesting []) }
        ensures few { IfOk result (λ nesting. nesting.opened ≡ 0) }
    {
        let mut scopes = Vec::new(alloc);
        scopes.push(0)?;
        Ok(Nesting { scopes, opened: 0 })
    }

    /// The scope in which an event declares: a function's is round that of its parameters.
    fn scope_of(&self, event: Spelled) -> usize
        ensures { result ≡ scope_of (reverse self.now.scopes.items) event }
    {
        match event {
            Spelled::Declare { role, .. } if role.kind == Kind::Function => self.scope(1),
            _ => self.scope(0),
        }
    }

    /// The number of the scope that lies so far out, and 0 where there is none.
    fn scope(&self, out: usize) -> usize
        ensures { result ≡ get_or (reverse self.now.scopes.items) out 0 }
    {
        if out < self.scopes.len() {
            self.scopes[self.scopes.len() - 1 - out]
        } else {
            0
        }
    }

    /// Goes past an event, and answers the scope in which it declares.
    pub(crate) fn pass(&mut self, event: Spelled) -> Result<usize, AllocError>
        requires { self.now.opened < 2 ^ 63 }
        ensures known { (before : List TheSpelled) → Nests self.old before → OnOk result (Nests self.new (event ∷ before)) }
        ensures scope { (before : List TheSpelled) → Nests self.old before → IfOk result (λ scope. scope ≡ scope_of (open_scopes before) event) }
        ensures few { OnOk result (self.new.opened ≤ self.old.opened + 1) }
    {
        let scope = self.scope_of(event);
        match event {
            Spelled::Open => {
                self.opened += 1;
                self.scopes.push(self.opened)?;
            }
            Spelled::Close => {
                self.scopes.pop();
            }
            _ => {}
        }
        Ok(scope)
    }
}
