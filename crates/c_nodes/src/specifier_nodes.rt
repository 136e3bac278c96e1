ghost use Rattle.std.specs.Prelude.{◌≡◌, ◌∷◌, map, IfOk};
ghost use Rattle.std.specs.Option.{option_map};
ghost use Rattle.c_rawtree.specs.Expressions;
ghost use Rattle.c_rawtree.specs.Views;
ghost use Rattle.c_rawtree.specs.Views.{boxed_view, member_view, enumerator_view, specifier_view, declarator_view};
ghost use Rattle.c_parts.specs.PartData;
ghost use Rattle.c_parts.specs.PartViews.{leaf_view, structure_view, enumeration_view, declaration_part_view, parts_view};
ghost use Rattle.c_parts.specs.Reading.{Fits};
ghost use Rattle.c_nodes.specs.declared.specifier_nodes.SpecifierAction.TheVariants as ActionOf;
ghost use Rattle.c_nodes.specs.SpecifierNodes.{kinds, tagged_structure, struct_specifier, tagged_enumeration, enum_specifier, node};

use c_parts::{Chain, DeclarationPart, Enumeration, Leaf, Parts, Structure};
use c_rawtree::{Declarator, Enumerator, Expression, Keyword, MemberDeclaration, Specifier, Word};
use misra_base::Place;
use std::alloc::{AllocError, Global};

/// What a production of declaration specifiers makes of its parts.
#[derive(Clone, Copy)]
pub enum SpecifierAction {
    /// One specifier, and those behind it.
    Specifiers,
    /// No more specifiers.
    NoSpecifiers,
    /// A keyword (C11 6.7.1 to 6.7.4).
    Keyword(Keyword),
    /// A type of the library.
    LibraryType,
    /// A name of a type (C11 6.7.8).
    TypedefName,
    /// `struct ..` (C11 6.7.2.1).
    Struct,
    /// A tag, and the members where they are declared.
    TaggedStructure,
    /// The members of a structure without a tag.
    UntaggedStructure,
    /// Members behind a tag.
    SomeMembers,
    /// No members behind a tag.
    NoMembers,
    /// `{ members }`
    MembersInBraces,
    /// `specifiers member { , member } ;`, and the members behind it.
    MemberDeclaration,
    /// No more members.
    NoMoreMembers,
    /// `, member`, and those behind it.
    Declarators,
    /// No more members of one type.
    NoDeclarators,
    /// `enum ..` (C11 6.7.2.2).
    Enum,
    /// A tag, and the constants where they are declared.
    TaggedEnumeration,
    /// The constants of an enumeration without a tag.
    UntaggedEnumeration,
    /// Constants behind a tag.
    SomeEnumerators,
    /// No constants behind a tag.
    NoEnumerators,
    /// `{ name [ = value ] .. }`
    EnumeratorsInBraces,
    /// `, ..`
    EnumeratorsBehindComma,
    /// The constants behind another one.
    EnumeratorsAgain,
    /// `name [ = value ]`, and those behind it.
    Enumerator,
    /// No more constants.
    NoMoreEnumerators,
}

/// What the production makes of the parts.
pub(crate) fn specifier_node(
    alloc: Global,
    action: SpecifierAction,
    parts: &mut Parts,
) -> Result<DeclarationPart, AllocError>
    requires { Fits (kinds action) (parts_view parts.now) }
    ensures { IfOk result (λ p. declaration_part_view p ≡ node action (parts_view parts.old)) }
{
    match action {
        SpecifierAction::Specifiers => specifiers(
            parts.declaration_part().specifier(),
            parts.declaration_part().specifiers(),
        ),
        SpecifierAction::NoSpecifiers => Ok(DeclarationPart::Specifiers(Chain::new(alloc))),
        SpecifierAction::Keyword(keyword) => Ok(DeclarationPart::Specifier(keyword_specifier(
            parts.leaf(),
            keyword,
        ))),
        SpecifierAction::LibraryType => library_type(alloc, parts.leaf()),
        SpecifierAction::TypedefName => typedef_name(alloc, parts.leaf()),
        SpecifierAction::Struct => Ok(DeclarationPart::Specifier(structure(
            parts.leaf(),
            parts.declaration_part().structure(),
        ))),
        SpecifierAction::TaggedStructure => structure_with_tag(
            alloc,
            parts.leaf(),
            parts.declaration_part().optional_members(),
        ),
        SpecifierAction::UntaggedStructure => Ok(DeclarationPart::Structure(
            Structure::Declaration {
                tag: None,
                members: parts.declaration_part().members(),
            },
        )),
        SpecifierAction::SomeMembers => Ok(DeclarationPart::OptionalMembers(Some(
            parts.declaration_part().members(),
        ))),
        SpecifierAction::NoMembers => Ok(DeclarationPart::OptionalMembers(None)),
        SpecifierAction::MembersInBraces => {
            parts.leaf();
            Ok(DeclarationPart::Members(parts.declaration_part().members()))
        },
        SpecifierAction::MemberDeclaration => members(parts),
        SpecifierAction::NoMoreMembers => Ok(DeclarationPart::Members(Chain::new(alloc))),
        SpecifierAction::Declarators => declarators(
            parts.leaf(),
            parts.declaration_part().declarator(),
            parts.declaration_part().declarators(),
        ),
        SpecifierAction::NoDeclarators => Ok(DeclarationPart::Declarators(Chain::new(alloc))),
        SpecifierAction::Enum => Ok(DeclarationPart::Specifier(enumeration(
            parts.leaf(),
            parts.declaration_part().enumeration(),
        ))),
        SpecifierAction::TaggedEnumeration => enumeration_with_tag(
            alloc,
            parts.leaf(),
            parts.declaration_part().optional_enumerators(),
        ),
        SpecifierAction::UntaggedEnumeration => Ok(DeclarationPart::Enumeration(
            Enumeration::Declaration {
                tag: None,
                enumerators: parts.declaration_part().enumerators(),
            },
        )),
        SpecifierAction::SomeEnumerators => Ok(DeclarationPart::OptionalEnumerators(Some(
            parts.declaration_part().enumerators(),
        ))),
        SpecifierAction::NoEnumerators => Ok(DeclarationPart::OptionalEnumerators(None)),
        SpecifierAction::EnumeratorsInBraces => {
            parts.leaf();
            enumerator(
                alloc,
                parts.leaf(),
                parts.expression_part().optional_expression(),
                parts.declaration_part().enumerators(),
            )
        }
        SpecifierAction::EnumeratorsBehindComma => {
            parts.leaf();
            Ok(DeclarationPart::Enumerators(parts.declaration_part().enumerators()))
        },
        SpecifierAction::EnumeratorsAgain => Ok(DeclarationPart::Enumerators(
            parts.declaration_part().enumerators(),
        )),
        SpecifierAction::Enumerator => enumerator(
            alloc,
            parts.leaf(),
            parts.expression_part().optional_expression(),
            parts.declaration_part().enumerators(),
        ),
        SpecifierAction::NoMoreEnumerators => Ok(DeclarationPart::Enumerators(Chain::new(alloc))),
    }
}

fn specifiers(
    one: Specifier,
    mut specifiers: Chain<Specifier>,
) -> Result<DeclarationPart, AllocError>
    ensures { IfOk result (λ part. declaration_part_view part ≡ PartData.specifiers ((specifier_view one) ∷ (map specifier_view specifiers))) }
{
    specifiers.put_front(one)?;
    Ok(DeclarationPart::Specifiers(specifiers))
}

fn keyword_specifier(word: Leaf, keyword: Keyword) -> Specifier
    ensures { specifier_view result ≡ Expressions.keyword (leaf_view word.entry).place keyword }
{
    Specifier::Keyword {
        place: word.place,
        keyword,
    }
}

fn library_type(alloc: Global, word: Leaf) -> Result<DeclarationPart, AllocError>
    ensures { IfOk result (λ part. declaration_part_view part ≡ PartData.specifier (Expressions.library_type (leaf_view word.entry))) }
{
    Ok(DeclarationPart::Specifier(Specifier::LibraryType(word.word(alloc)?)))
}

fn typedef_name(alloc: Global, word: Leaf) -> Result<DeclarationPart, AllocError>
    ensures { IfOk result (λ part. declaration_part_view part ≡ PartData.specifier (Expressions.typedef_name (leaf_view word.entry))) }
{
    Ok(DeclarationPart::Specifier(Specifier::TypedefName(word.word(alloc)?)))
}

fn structure(keyword: Leaf, structure: Structure) -> Specifier
    ensures { specifier_view result ≡ struct_specifier (leaf_view keyword.entry).place (structure_view structure) }
{
    struct_specifier(keyword.place, structure)
}

fn structure_with_tag(
    alloc: Global,
    tag: Leaf,
    members: Option<Chain<MemberDeclaration>>,
) -> Result<DeclarationPart, AllocError>
    ensures { IfOk result (λ part. declaration_part_view part ≡ PartData.structure (tagged_structure (leaf_view tag.entry) (option_map (map member_view) members))) }
{
    Ok(DeclarationPart::Structure(tagged_structure(tag.word(alloc)?, members)))
}

fn members(parts: &mut Parts) -> Result<DeclarationPart, AllocError>
    requires { Fits (kinds ActionOf.MemberDeclaration) (parts_view parts.now) }
    ensures { IfOk result (λ part. declaration_part_view part ≡ node ActionOf.MemberDeclaration (parts_view parts.old)) }
{
    let specifiers = parts.declaration_part().specifiers();
    let first = parts.declaration_part().declarator();
    let mut declarators = parts.declaration_part().declarators();
    parts.leaf();
    let mut members = parts.declaration_part().members();
    declarators.put_front(first)?;
    members.put_front(member_declaration(specifiers, declarators))?;
    Ok(DeclarationPart::Members(members))
}

fn declarators(
    _: Leaf,
    one: Declarator,
    mut declarators: Chain<Declarator>,
) -> Result<DeclarationPart, AllocError>
    ensures { IfOk result (λ part. declaration_part_view part ≡ PartData.declarators ((declarator_view one) ∷ (map declarator_view declarators))) }
{
    declarators.put_front(one)?;
    Ok(DeclarationPart::Declarators(declarators))
}

fn enumeration(keyword: Leaf, enumeration: Enumeration) -> Specifier
    ensures { specifier_view result ≡ enum_specifier (leaf_view keyword.entry).place (enumeration_view enumeration) }
{
    enum_specifier(keyword.place, enumeration)
}

fn enumeration_with_tag(
    alloc: Global,
    tag: Leaf,
    enumerators: Option<Chain<Enumerator>>,
) -> Result<DeclarationPart, AllocError>
    ensures { IfOk result (λ part. declaration_part_view part ≡ PartData.enumeration (tagged_enumeration (leaf_view tag.entry) (option_map (map enumerator_view) enumerators))) }
{
    Ok(DeclarationPart::Enumeration(tagged_enumeration(tag.word(alloc)?, enumerators)))
}

fn enumerator(
    alloc: Global,
    name: Leaf,
    value: Option<Box<Expression>>,
    mut enumerators: Chain<Enumerator>,
) -> Result<DeclarationPart, AllocError>
    ensures { IfOk result (λ part. declaration_part_view part ≡ PartData.enumerators ((record { name = (leaf_view name.entry); value = Views.maybe_of (option_map boxed_view value) }) ∷ (map enumerator_view enumerators))) }
{
    enumerators.put_front(Enumerator {
        name: name.word(alloc)?,
        value,
    })?;
    Ok(DeclarationPart::Enumerators(enumerators))
}

/// A structure with a tag.
fn tagged_structure(tag: Word, members: Option<Chain<MemberDeclaration>>) -> Structure
    ensures { structure_view result ≡ tagged_structure tag (option_map (map member_view) members) }
{
    match members {
        None => Structure::Reference(tag),
        Some(members) => Structure::Declaration {
            tag: Some(tag),
            members,
        },
    }
}

/// `struct` with what stands behind it.
fn struct_specifier(place: Place, structure: Structure) -> Specifier
    ensures { specifier_view result ≡ struct_specifier place (structure_view structure) }
{
    match structure {
        Structure::Reference(tag) => Specifier::StructReference { place, tag },
        Structure::Declaration { tag, members } => Specifier::StructDeclaration {
            place,
            tag,
            members: members.into_vec(),
        },
    }
}

/// An enumeration with a tag.
fn tagged_enumeration(tag: Word, enumerators: Option<Chain<Enumerator>>) -> Enumeration
    ensures { enumeration_view result ≡ tagged_enumeration tag (option_map (map enumerator_view) enumerators) }
{
    match enumerators {
        None => Enumeration::Reference(tag),
        Some(enumerators) => Enumeration::Declaration {
            tag: Some(tag),
            enumerators,
        },
    }
}

/// `enum` with what stands behind it.
fn enum_specifier(place: Place, enumeration: Enumeration) -> Specifier
    ensures { specifier_view result ≡ enum_specifier place (enumeration_view enumeration) }
{
    match enumeration {
        Enumeration::Reference(tag) => Specifier::EnumReference { place, tag },
        Enumeration::Declaration { tag, enumerators } => Specifier::EnumDeclaration {
            place,
            tag,
            enumerators: enumerators.into_vec(),
        },
    }
}

/// A declaration of members.
fn member_declaration(
    specifiers: Chain<Specifier>,
    declarators: Chain<Declarator>,
) -> MemberDeclaration
    ensures { member_view result ≡ record { specifiers = Views.specifiers_of (map specifier_view specifiers); declarators = Views.declarators_of (map declarator_view declarators) } }
{
    MemberDeclaration {
        specifiers: specifiers.into_vec(),
        declarators: declarators.into_vec(),
    }
}
