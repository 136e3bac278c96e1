ghost use Rattle.std.specs.Prelude.{◌≡◌, ◌∷◌, [], List, OnOk};
ghost use Rattle.misra_base.specs.Tables.{rows};
ghost use Rattle.c_visibility.specs.declared.spelled.Spelled.{Spelled as TheSpelled};
ghost use Rattle.c_visibility.specs.Library.{library_rows};
ghost use Rattle.c_visibility.specs.Spelling.{texts};
ghost use Rattle.c_visibility.specs.Typedefs.{worse, class_named, base_class, form_class, is_reserved, needs_body, facts_of, spelled};
ghost use Rattle.c_visibility.specs.Recalls.{Recalls};

use crate::library::is_library;
use crate::spelled::{Class, Facts, Spelled};
use crate::spelling::{number_of, spot};
use c_identifiers::{Base, Event, Form, TypeForm};
use c_names::Kind;
use c_tree::Word;
use indexmap::{IndexMap, IndexSet};
use misra_base::KeyTable;
use std::alloc::{AllocError, Global};

/// What is known of the types of typedef names, and of the parameters that were seen last.
#[derive(Drop)]
pub(crate) struct Typedefs {
    pub(crate) classes: IndexMap<usize, Class>,
    pub(crate) parameters: Class,
}

fn worse(a: Class, b: Class) -> Class
    ensures { result ≡ worse a b }
{
    match a {
        Class::Other => Class::Other,
        Class::Void => match b {
            Class::Other => Class::Other,
            Class::Void | Class::Arithmetic => Class::Void,
        },
        Class::Arithmetic => b,
    }
}

/// Whether a function with these types of its result and its parameters is to have a body where it is called.
fn needs_body(answer: Class, parameters: Class, is_lone: bool) -> bool
    ensures { result ≡ needs_body answer parameters is_lone }
{
    match answer {
        Class::Other => true,
        Class::Arithmetic | Class::Void => match parameters {
            Class::Other => true,
            Class::Void => !is_lone,
            Class::Arithmetic => false,
        },
    }
}

impl Typedefs {
    pub(crate) fn new(alloc: Global) -> Typedefs
        ensures { Recalls result [] }
    {
        Typedefs {
            classes: IndexMap::new(alloc),
            parameters: Class::Arithmetic,
        }
    }

    /// Goes past what has been spelled.
    pub(crate) fn note(&mut self, spelled: Spelled) -> Result<(), AllocError>
        ensures { (before : List TheSpelled) → Recalls self.old before → OnOk result (Recalls self.new (spelled ∷ before)) }
    {
        if let Spelled::Declare { role, facts, word } = spelled
            && role.kind == Kind::Typedef
        {
            self.classes.insert(word.name, facts.class)?;
        }
        self.parameters = match spelled {
            Spelled::Parameter(class) => worse(class, self.parameters),
            _ => Class::Arithmetic,
        };
        Ok(())
    }

    fn class_named(&self, name: usize) -> Option<Class>
        ensures { (before : List TheSpelled) → Recalls self.now before → result ≡ class_named name before }
    {
        self.classes.get(&name).copied()
    }

    fn base_class(&self, names: &IndexSet<Vec<u8>>, base: &Base) -> Class
        ensures { (before : List TheSpelled) → Recalls self.now before → result ≡ base_class (texts names.now) before base.now }
    {
        match base {
            Base::Arithmetic => Class::Arithmetic,
            Base::Void => Class::Void,
            Base::Other => Class::Other,
            Base::Typedef(word) => match self.class_named(number_of(names, word)) {
                Some(class) => class,
                None => Class::Arithmetic,
            },
        }
    }

    fn form_class(&self, names: &IndexSet<Vec<u8>>, form: &TypeForm) -> Class
        ensures { (before : List TheSpelled) → Recalls self.now before → result ≡ form_class (texts names.now) before form.now }
    {
        if form.is_pointer {
            Class::Other
        } else {
            self.base_class(names, &form.base)
        }
    }

    /// Whether the word is a name of the library, or of a typedef.
    fn is_reserved(&self, table: &KeyTable<74>, names: &IndexSet<Vec<u8>>, word: &Word) -> bool
        requires { rows table.now ≡ library_rows }
        ensures { (before : List TheSpelled) → Recalls self.now before → result ≡ is_reserved (texts names.now) before word.now }
    {
        is_library(table, word.text.bytes()) || self.class_named(number_of(names, word)).is_some()
    }

    fn facts_of(
        &self,
        table: &KeyTable<74>,
        names: &IndexSet<Vec<u8>>,
        form: &Form,
        word: &Word,
    ) -> Facts
        requires { rows table.now ≡ library_rows }
        ensures { (before : List TheSpelled) → Recalls self.now before → result ≡ facts_of (texts names.now) before form.now word.now }
    {
        let is_reserved = self.is_reserved(table, names, word);
        let is_main = word.text.bytes() == b"main".as_slice();
        match form {
            Form::Other => Facts {
                is_reserved,
                class: Class::Arithmetic,
                needs_body: false,
                is_main,
            },
            Form::Type(form) => Facts {
                is_reserved,
                class: self.form_class(names, form),
                needs_body: false,
                is_main,
            },
            Form::Function { result, is_lone } => Facts {
                is_reserved,
                class: Class::Arithmetic,
                needs_body: needs_body(self.form_class(names, result), self.parameters, *is_lone),
                is_main,
            },
        }
    }

    /// What scopes see, with words by their numbers.
    pub(crate) fn spelled(
        &self,
        table: &KeyTable<74>,
        names: &IndexSet<Vec<u8>>,
        event: &Event,
    ) -> Spelled
        requires { rows table.now ≡ library_rows }
        ensures { (before : List TheSpelled) → Recalls self.now before → result ≡ spelled (texts names.now) before event.now }
    {
        match event {
            Event::Open => Spelled::Open,
            Event::Close => Spelled::Close,
            Event::Mention(_) => Spelled::Mention,
            Event::Parameter(form) => Spelled::Parameter(self.form_class(names, form)),
            Event::Declare { role, form, word } => Spelled::Declare {
                role: *role,
                facts: self.facts_of(table, names, form, word),
                word: spot(names, word),
            },
            Event::Use { space, usage, word } => Spelled::Use {
                space: *space,
                usage: *usage,
                word: spot(names, word),
            },
        }
    }
}
