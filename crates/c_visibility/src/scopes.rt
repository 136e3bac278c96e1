ghost use Rattle.std.specs.Prelude.{◌≡◌, ◌∷◌, [], List, map, reverse, if◌then◌else◌, OnOk, IfOk};
ghost use Rattle.indexmap.specs.IndexMap.{get};
ghost use Rattle.c_visibility.specs.declared.spelled.Spelled.{Spelled as TheSpelled};
ghost use Rattle.c_visibility.specs.declared.spelled.Spelled.TheVariants.{Open, Close, Declare};
ghost use Rattle.c_visibility.specs.declared.scopes.Identifier.{Identifier as TheIdentifier};
ghost use Rattle.c_visibility.specs.Scopes.{same_identifier, identifier_of, may_repeat, is_second, joined, declares, taken, innermost, inner, round, known_at, declarations, linked, linked_to};
ghost use Rattle.c_visibility.specs.Knowledge.{has, taken_inner, taken_round, Knows};

use crate::linkages::{Linked, is_refused};
use crate::spelled::{Facts, Spelled, Spot};
use c_identifiers::Role;
use c_names::{Kind, NameSpace};
use indexmap::IndexMap;
use std::alloc::{AllocError, Global};

/// An identifier in its name space.
#[derive(Clone, Copy, Debug, PartialEq, Eq, Hash)]
pub struct Identifier {
    pub space: NameSpace,
    /// The number of its spelling.
    pub name: usize,
}

/// What the declarations of one scope make of an identifier.
#[derive(Clone, Copy, Debug, PartialEq, Eq)]
pub struct Binding {
    /// The number of its first declaration there.
    pub number: usize,
    pub kind: Kind,
    /// Whether it may be declared there again: it has linkage, or is a tag (C11 6.7p3).
    pub repeats: bool,
    pub defined: bool,
}

/// The bindings of the scopes that are open, the outermost first.
#[derive(Drop)]
pub(crate) struct Scopes {
    pub(crate) levels: Vec<IndexMap<Identifier, Binding>>,
}

impl Scopes {
    /// One scope is open where the text begins, the one round that of the file.
    pub(crate) fn new(alloc: Global) -> Result<Scopes, AllocError>
        ensures { IfOk result (λ scopes. Knows scopes []) }
    {
        let mut levels = Vec::new(alloc);
        levels.push(IndexMap::new(alloc))?;
        Ok(Scopes { levels })
    }

    fn open(&mut self, alloc: Global) -> Result<(), AllocError>
        ensures { (before : List TheSpelled) → Knows self.old before → OnOk result (Knows self.new (Open ∷ before)) }
    {
        self.levels.push(IndexMap::new(alloc))?;
        Ok(())
    }

    fn close(&mut self)
        ensures { (before : List TheSpelled) → Knows self.old before → Knows self.new (Close ∷ before) }
    {
        self.levels.pop();
    }

    /// Goes past an event, and answers what is known of its identifier where it stands: of a use, in the innermost scope
    /// that knows it, and of a declaration, in the scope in which it is declared.
    pub(crate) fn pass(
        &mut self,
        alloc: Global,
        number: usize,
        event: Spelled,
        first: Option<Linked>,
    ) -> Result<Option<Binding>, AllocError>
        ensures known { (before : List TheSpelled) → Knows self.old before → number ≡ declarations before → first ≡ linked_to before event → OnOk result (Knows self.new (event ∷ before)) }
        ensures found { (before : List TheSpelled) → Knows self.old before → IfOk result (λ r. r ≡ known_at before event) }
    {
        match event {
            Spelled::Open => {
                self.open(alloc)?;
                Ok(None)
            }
            Spelled::Close => {
                self.close();
                Ok(None)
            }
            Spelled::Mention | Spelled::Parameter(_) => Ok(None),
            Spelled::Use { space, word, .. } => Ok(find(&self.levels, identifier_of(space, word))),
            Spelled::Declare { role, facts, word } => {
                self.declare_word(number, role, facts, word, first)
            }
        }
    }

    /// Declares a word, before which this one is the first of its name that has linkage.
    fn declare_word(
        &mut self,
        number: usize,
        role: Role,
        facts: Facts,
        word: Spot,
        first: Option<Linked>,
    ) -> Result<Option<Binding>, AllocError>
        ensures known { (before : List TheSpelled) → Knows self.old before → number ≡ declarations before → first ≡ linked word.name before → OnOk result (Knows self.new (Declare role facts word ∷ before)) }
        ensures found { (before : List TheSpelled) → Knows self.old before → IfOk result (λ r. r ≡ known_at before (Declare role facts word)) }
    {
        let identifier = identifier_of(role.space, word);
        let is_refused = is_refused(role, facts, first);
        if role.kind == Kind::Function {
            self.declare_round(number, role, is_refused, identifier)
        } else {
            self.declare(number, role, is_refused, identifier)
        }
    }

    /// Declares in the innermost scope.
    fn declare(
        &mut self,
        number: usize,
        role: Role,
        is_refused: bool,
        identifier: Identifier,
    ) -> Result<Option<Binding>, AllocError>
        ensures known { OnOk result ((i : TheIdentifier) → has self.new.levels.items i
            ≡ (if same_identifier identifier i then taken_inner (record { number = number; role = role; is_refused = is_refused }) (has self.old.levels.items i) else has self.old.levels.items i)) }
        ensures found { IfOk result (λ r. r ≡ inner (has self.old.levels.items identifier)) }
    {
        match self.levels.pop() {
            Some(mut level) => {
                let known = declare_in(&mut level, number, role, is_refused, identifier)?;
                self.levels.push(level)?;
                Ok(known)
            }
            None => Ok(None),
        }
    }

    /// Declares in the scope round the innermost one.
    fn declare_round(
        &mut self,
        number: usize,
        role: Role,
        is_refused: bool,
        identifier: Identifier,
    ) -> Result<Option<Binding>, AllocError>
        ensures known { OnOk result ((i : TheIdentifier) → has self.new.levels.items i
            ≡ (if same_identifier identifier i then taken_round (record { number = number; role = role; is_refused = is_refused }) (has self.old.levels.items i) else has self.old.levels.items i)) }
        ensures found { IfOk result (λ r. r ≡ inner (round (has self.old.levels.items identifier))) }
    {
        match self.levels.pop() {
            Some(level) => {
                let known = self.declare(number, role, is_refused, identifier)?;
                self.levels.push(level)?;
                Ok(known)
            }
            None => Ok(None),
        }
    }
}

/// Declares an identifier in one scope, and answers what was known of it there.
fn declare_in(
    level: &mut IndexMap<Identifier, Binding>,
    number: usize,
    role: Role,
    is_refused: bool,
    identifier: Identifier,
) -> Result<Option<Binding>, AllocError>
    ensures known { OnOk result ((i : TheIdentifier) → get same_identifier level.new i
        ≡ (if same_identifier identifier i then taken (record { number = number; role = role; is_refused = is_refused }) (get same_identifier level.old i) else get same_identifier level.old i)) }
    ensures found { IfOk result (λ r. r ≡ get same_identifier level.old identifier) }
{
    let known = level.get(&identifier).copied();
    if declares(role, is_refused, known) {
        level.insert(identifier, joined(number, role, known))?;
    }
    Ok(known)
}

fn find(levels: &[IndexMap<Identifier, Binding>], identifier: Identifier) -> Option<Binding>
    ensures { result ≡ innermost (has levels.now identifier) }
{
    let mut depth = levels.len();
    while depth > 0 {
        depth -= 1;
        if let Some(binding) = levels[depth].get(&identifier) {
            return Some(*binding);
        }
    }
    None
}

fn identifier_of(space: NameSpace, word: Spot) -> Identifier
    ensures { result ≡ identifier_of space word }
{
    Identifier {
        space,
        name: word.name,
    }
}

/// Whether an identifier may be declared again in its scope (C11 6.7p3).
fn may_repeat(role: Role) -> bool
    ensures { result ≡ may_repeat role }
{
    role.linkage.is_some() || role.space == NameSpace::Tags
}

/// Whether what is known of the identifier makes this a second declaration.
pub fn is_second(role: Role, known: Option<Binding>) -> bool
    ensures { result ≡ is_second role known }
{
    match known {
        Some(binding) => {
            binding.kind != role.kind
                || !(binding.repeats && may_repeat(role))
                || (role.defines && binding.defined)
        }
        None => false,
    }
}

/// Whether a declaration declares something.
pub fn declares(role: Role, is_refused: bool, known: Option<Binding>) -> bool
    ensures { result ≡ declares role is_refused known }
{
    !(is_refused || is_second(role, known))
}

fn joined(number: usize, role: Role, known: Option<Binding>) -> Binding
    ensures { result ≡ joined number role known }
{
    match known {
        Some(binding) => Binding {
            defined: role.defines || binding.defined,
            ..binding
        },
        None => Binding {
            number,
            kind: role.kind,
            repeats: may_repeat(role),
            defined: role.defines,
        },
    }
}
