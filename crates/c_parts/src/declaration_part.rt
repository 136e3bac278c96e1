ghost use Rattle.std.specs.Prelude.{◌≡◌, map};
ghost use Rattle.std.specs.Option.{option_map};
ghost use Rattle.c_rawtree.specs.Views.{bound_view, declarator_view, enumerator_view, member_view, pointers_view, specifier_view};
ghost use Rattle.c_rawtree.specs.StatementViews.{init_declarator_view, initialization_view, initializer_view};
ghost use Rattle.c_parts.specs.Kinds;
ghost use Rattle.c_parts.specs.PartData;
ghost use Rattle.c_parts.specs.PartViews.{declaration_part_view, enumeration_view, objects_view, structure_view};
ghost use Rattle.c_parts.specs.Reading.{kind_of, qualifiers_of, pointers_of, specifier_of, specifiers_of, bounds_of, declarator_of, declarators_of, members_of, optional_members_of, structure_of, enumerators_of, optional_enumerators_of, enumeration_of, initializer_of, initializers_of, initialization_of, init_declarators_of, objects_of};

use crate::chain::Chain;
use c_rawtree::{
    Bound, Declarator, Enumerator, InitDeclarator, Initialization, Initializer, MemberDeclaration,
    Pointer, Qualifier, Specifier, Word,
};

/// What stands behind `struct` (C11 6.7.2.1).
#[derive(Drop)]
pub enum Structure {
    Reference(Word),
    Declaration {
        tag: Option<Word>,
        members: Chain<MemberDeclaration>,
    },
}

/// What stands behind `enum` (C11 6.7.2.2).
#[derive(Drop)]
pub enum Enumeration {
    Reference(Word),
    Declaration {
        tag: Option<Word>,
        enumerators: Chain<Enumerator>,
    },
}

/// What stands behind the first name of a declaration of objects.
#[derive(Drop)]
pub struct Objects {
    pub bounds: Chain<Bound>,
    pub initialization: Option<Initialization>,
    /// The other declarators.
    pub others: Chain<InitDeclarator>,
}

/// A part that stands in a declaration (C11 6.7).
pub enum DeclarationPart {
    /// The qualifiers of a pointer.
    Qualifiers(Chain<Qualifier>),
    /// The `*` before a name.
    Pointers(Chain<Pointer>),
    /// A declaration specifier.
    Specifier(Specifier),
    /// The declaration specifiers.
    Specifiers(Chain<Specifier>),
    /// The `[ size ]` behind a name.
    Bounds(Chain<Bound>),
    /// A declarator.
    Declarator(Declarator),
    /// Declarators of members.
    Declarators(Chain<Declarator>),
    /// Declarations of members.
    Members(Chain<MemberDeclaration>),
    /// The members of a structure, where they are declared.
    OptionalMembers(Option<Chain<MemberDeclaration>>),
    /// What stands behind `struct`.
    Structure(Structure),
    /// Constants of an enumeration.
    Enumerators(Chain<Enumerator>),
    /// The constants of an enumeration, where they are declared.
    OptionalEnumerators(Option<Chain<Enumerator>>),
    /// What stands behind `enum`.
    Enumeration(Enumeration),
    /// An initialiser.
    Initializer(Initializer),
    /// Initialisers.
    Initializers(Chain<Initializer>),
    /// `= initializer`, or nothing.
    Initialization(Option<Initialization>),
    /// Declarators with their initialisers.
    InitDeclarators(Chain<InitDeclarator>),
    /// What stands behind the first name of a declaration of objects.
    Objects(Objects),
}

impl Drop for DeclarationPart {
    fn drop(self) {
        match self {
            DeclarationPart::Qualifiers(_)
            | DeclarationPart::Pointers(_)
            | DeclarationPart::Specifier(_)
            | DeclarationPart::Specifiers(_)
            | DeclarationPart::Bounds(_)
            | DeclarationPart::Declarator(_)
            | DeclarationPart::Declarators(_)
            | DeclarationPart::Members(_)
            | DeclarationPart::OptionalMembers(_)
            | DeclarationPart::Structure(_)
            | DeclarationPart::Enumerators(_)
            | DeclarationPart::OptionalEnumerators(_)
            | DeclarationPart::Enumeration(_)
            | DeclarationPart::Initializer(_)
            | DeclarationPart::Initializers(_)
            | DeclarationPart::Initialization(_)
            | DeclarationPart::InitDeclarators(_)
            | DeclarationPart::Objects(_) => {}
        }
    }
}

impl DeclarationPart {
    /// Its content: the qualifiers of a pointer.
    pub fn qualifiers(self) -> Chain<Qualifier>
        requires { kind_of (PartData.declaration_part (declaration_part_view self)) ≡ Kinds.qualifiers }
        ensures { result ≡ qualifiers_of (PartData.declaration_part (declaration_part_view self)) }
    {
        match self {
            DeclarationPart::Qualifiers(part) => part,
            _ => unreachable!(),
        }
    }

    /// Its content: the `*` before a name.
    pub fn pointers(self) -> Chain<Pointer>
        requires { kind_of (PartData.declaration_part (declaration_part_view self)) ≡ Kinds.pointers }
        ensures { pointers_view result ≡ pointers_of (PartData.declaration_part (declaration_part_view self)) }
    {
        match self {
            DeclarationPart::Pointers(part) => part,
            _ => unreachable!(),
        }
    }

    /// Its content: a declaration specifier.
    pub fn specifier(self) -> Specifier
        requires { kind_of (PartData.declaration_part (declaration_part_view self)) ≡ Kinds.specifier }
        ensures { specifier_view result ≡ specifier_of (PartData.declaration_part (declaration_part_view self)) }
    {
        match self {
            DeclarationPart::Specifier(part) => part,
            _ => unreachable!(),
        }
    }

    /// Its content: the declaration specifiers.
    pub fn specifiers(self) -> Chain<Specifier>
        requires { kind_of (PartData.declaration_part (declaration_part_view self)) ≡ Kinds.specifiers }
        ensures { map specifier_view result ≡ specifiers_of (PartData.declaration_part (declaration_part_view self)) }
    {
        match self {
            DeclarationPart::Specifiers(part) => part,
            _ => unreachable!(),
        }
    }

    /// Its content: the `[ size ]` behind a name.
    pub fn bounds(self) -> Chain<Bound>
        requires { kind_of (PartData.declaration_part (declaration_part_view self)) ≡ Kinds.bounds }
        ensures { map bound_view result ≡ bounds_of (PartData.declaration_part (declaration_part_view self)) }
    {
        match self {
            DeclarationPart::Bounds(part) => part,
            _ => unreachable!(),
        }
    }

    /// Its content: a declarator.
    pub fn declarator(self) -> Declarator
        requires { kind_of (PartData.declaration_part (declaration_part_view self)) ≡ Kinds.declarator }
        ensures { declarator_view result ≡ declarator_of (PartData.declaration_part (declaration_part_view self)) }
    {
        match self {
            DeclarationPart::Declarator(part) => part,
            _ => unreachable!(),
        }
    }

    /// Its content: declarators of members.
    pub fn declarators(self) -> Chain<Declarator>
        requires { kind_of (PartData.declaration_part (declaration_part_view self)) ≡ Kinds.declarators }
        ensures { map declarator_view result ≡ declarators_of (PartData.declaration_part (declaration_part_view self)) }
    {
        match self {
            DeclarationPart::Declarators(part) => part,
            _ => unreachable!(),
        }
    }

    /// Its content: declarations of members.
    pub fn members(self) -> Chain<MemberDeclaration>
        requires { kind_of (PartData.declaration_part (declaration_part_view self)) ≡ Kinds.members }
        ensures { map member_view result ≡ members_of (PartData.declaration_part (declaration_part_view self)) }
    {
        match self {
            DeclarationPart::Members(part) => part,
            _ => unreachable!(),
        }
    }

    /// Its content: the members of a structure, where they are declared.
    pub fn optional_members(self) -> Option<Chain<MemberDeclaration>>
        requires { kind_of (PartData.declaration_part (declaration_part_view self)) ≡ Kinds.optional_members }
        ensures { option_map (map member_view) result ≡ optional_members_of (PartData.declaration_part (declaration_part_view self)) }
    {
        match self {
            DeclarationPart::OptionalMembers(part) => part,
            _ => unreachable!(),
        }
    }

    /// Its content: what stands behind `struct`.
    pub fn structure(self) -> Structure
        requires { kind_of (PartData.declaration_part (declaration_part_view self)) ≡ Kinds.structure }
        ensures { structure_view result ≡ structure_of (PartData.declaration_part (declaration_part_view self)) }
    {
        match self {
            DeclarationPart::Structure(part) => part,
            _ => unreachable!(),
        }
    }

    /// Its content: constants of an enumeration.
    pub fn enumerators(self) -> Chain<Enumerator>
        requires { kind_of (PartData.declaration_part (declaration_part_view self)) ≡ Kinds.enumerators }
        ensures { map enumerator_view result ≡ enumerators_of (PartData.declaration_part (declaration_part_view self)) }
    {
        match self {
            DeclarationPart::Enumerators(part) => part,
            _ => unreachable!(),
        }
    }

    /// Its content: the constants of an enumeration, where they are declared.
    pub fn optional_enumerators(self) -> Option<Chain<Enumerator>>
        requires { kind_of (PartData.declaration_part (declaration_part_view self)) ≡ Kinds.optional_enumerators }
        ensures { option_map (map enumerator_view) result ≡ optional_enumerators_of (PartData.declaration_part (declaration_part_view self)) }
    {
        match self {
            DeclarationPart::OptionalEnumerators(part) => part,
            _ => unreachable!(),
        }
    }

    /// Its content: what stands behind `enum`.
    pub fn enumeration(self) -> Enumeration
        requires { kind_of (PartData.declaration_part (declaration_part_view self)) ≡ Kinds.enumeration }
        ensures { enumeration_view result ≡ enumeration_of (PartData.declaration_part (declaration_part_view self)) }
    {
        match self {
            DeclarationPart::Enumeration(part) => part,
            _ => unreachable!(),
        }
    }

    /// Its content: an initialiser.
    pub fn initializer(self) -> Initializer
        requires { kind_of (PartData.declaration_part (declaration_part_view self)) ≡ Kinds.initializer }
        ensures { initializer_view result ≡ initializer_of (PartData.declaration_part (declaration_part_view self)) }
    {
        match self {
            DeclarationPart::Initializer(part) => part,
            _ => unreachable!(),
        }
    }

    /// Its content: initialisers.
    pub fn initializers(self) -> Chain<Initializer>
        requires { kind_of (PartData.declaration_part (declaration_part_view self)) ≡ Kinds.initializers }
        ensures { map initializer_view result ≡ initializers_of (PartData.declaration_part (declaration_part_view self)) }
    {
        match self {
            DeclarationPart::Initializers(part) => part,
            _ => unreachable!(),
        }
    }

    /// Its content: `= initializer`, or nothing.
    pub fn initialization(self) -> Option<Initialization>
        requires { kind_of (PartData.declaration_part (declaration_part_view self)) ≡ Kinds.initialization }
        ensures { option_map initialization_view result ≡ initialization_of (PartData.declaration_part (declaration_part_view self)) }
    {
        match self {
            DeclarationPart::Initialization(part) => part,
            _ => unreachable!(),
        }
    }

    /// Its content: declarators with their initialisers.
    pub fn init_declarators(self) -> Chain<InitDeclarator>
        requires { kind_of (PartData.declaration_part (declaration_part_view self)) ≡ Kinds.init_declarators }
        ensures { map init_declarator_view result ≡ init_declarators_of (PartData.declaration_part (declaration_part_view self)) }
    {
        match self {
            DeclarationPart::InitDeclarators(part) => part,
            _ => unreachable!(),
        }
    }

    /// Its content: what stands behind the first name of a declaration of objects.
    pub fn objects(self) -> Objects
        requires { kind_of (PartData.declaration_part (declaration_part_view self)) ≡ Kinds.objects }
        ensures { objects_view result ≡ objects_of (PartData.declaration_part (declaration_part_view self)) }
    {
        match self {
            DeclarationPart::Objects(part) => part,
            _ => unreachable!(),
        }
    }
}
