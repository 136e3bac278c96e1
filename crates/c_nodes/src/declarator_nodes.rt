ghost use Rattle.std.specs.Prelude.{◌≡◌, ◌∷◌, map, IfOk, Some};
ghost use Rattle.std.specs.Option.{option_map};
ghost use Rattle.c_rawtree.specs.Expressions;
ghost use Rattle.c_rawtree.specs.Statements;
ghost use Rattle.c_rawtree.specs.Views;
ghost use Rattle.c_rawtree.specs.Views.{pointers_view, boxed_view, declarator_view, bound_view};
ghost use Rattle.c_rawtree.specs.StatementViews;
ghost use Rattle.c_rawtree.specs.StatementViews.{initializer_view, initialization_view, init_declarator_view};
ghost use Rattle.c_parts.specs.PartData;
ghost use Rattle.c_parts.specs.PartViews.{leaf_view, objects_view, declaration_part_view, parts_view};
ghost use Rattle.c_parts.specs.Reading.{Fits};
ghost use Rattle.c_nodes.specs.declared.declarator_nodes.DeclaratorAction.TheVariants as ActionOf;
ghost use Rattle.c_nodes.specs.DeclaratorNodes.{kinds, all_declarators, node};

use c_parts::{Chain, DeclarationPart, Leaf, Objects, Parts};
use c_rawtree::{
    Bound, Declarator, Expression, InitDeclarator, Initialization, Initializer, Pointer, Qualifier,
};
use std::alloc::{AllocError, Global};

/// What a production of declarators and initialisers makes of its parts.
#[derive(Clone, Copy)]
pub enum DeclaratorAction {
    /// A qualifier of a pointer, and those behind it.
    Qualifier(Qualifier),
    /// No more qualifiers.
    NoQualifiers,
    /// `* qualifiers`, and the pointers behind it (C11 6.7.6.1).
    Pointer,
    /// No more pointers.
    NoPointers,
    /// All pointers.
    Pointers,
    /// `[ [ size ] ]`, and the bounds behind it (C11 6.7.6.2).
    Bound,
    /// `[ size ]`, and the bounds behind it.
    MemberBound,
    /// No more bounds.
    NoBounds,
    /// All bounds.
    Bounds,
    /// `pointers name bounds` (C11 6.7.6).
    Declarator,
    /// An expression as an initialiser (C11 6.7.9).
    InitializerExpression,
    /// `{ initialiser .. }` (C11 6.7.9).
    InitializerList,
    /// `, ..`
    InitializersBehindComma,
    /// The initialisers behind another one.
    InitializersAgain,
    /// One initialiser, and those behind it.
    Initializers,
    /// No more initialisers.
    NoInitializers,
    /// `= initialiser`
    Initialization,
    /// No initialiser.
    NoInitialization,
    /// `, pointers name bounds [ = initialiser ]`, and those behind it.
    InitDeclarators,
    /// No more declarators.
    NoInitDeclarators,
    /// `bounds [ = initialiser ] { , declarator } ;`
    Objects,
    /// `;` where types alone are declared.
    OnlyTypes,
    /// `pointers name objects`
    Declarators,
}

/// What the production makes of the parts.
pub(crate) fn declarator_node(
    alloc: Global,
    action: DeclaratorAction,
    parts: &mut Parts,
) -> Result<DeclarationPart, AllocError>
    requires { Fits (kinds action) (parts_view parts.now) }
    ensures { IfOk result (λ p. declaration_part_view p ≡ node action (parts_view parts.old)) }
{
    match action {
        DeclaratorAction::Qualifier(qualifier) => qualifiers(
            parts.leaf(),
            parts.declaration_part().qualifiers(),
            qualifier,
        ),
        DeclaratorAction::NoQualifiers => Ok(DeclarationPart::Qualifiers(Chain::new(alloc))),
        DeclaratorAction::Pointer => pointer(
            parts.leaf(),
            parts.declaration_part().qualifiers(),
            parts.declaration_part().pointers(),
        ),
        DeclaratorAction::NoPointers => Ok(DeclarationPart::Pointers(Chain::new(alloc))),
        DeclaratorAction::Pointers => Ok(DeclarationPart::Pointers(
            parts.declaration_part().pointers(),
        )),
        DeclaratorAction::Bound => {
            parts.leaf();
            bound(
                parts.expression_part().optional_expression(),
                parts.leaf(),
                parts.declaration_part().bounds(),
            )
        }
        DeclaratorAction::MemberBound => {
            parts.leaf();
            bound(
                Some(parts.expression_part().operand().expression),
                parts.leaf(),
                parts.declaration_part().bounds(),
            )
        }
        DeclaratorAction::NoBounds => Ok(DeclarationPart::Bounds(Chain::new(alloc))),
        DeclaratorAction::Bounds => Ok(DeclarationPart::Bounds(parts.declaration_part().bounds())),
        DeclaratorAction::Declarator => one_declarator(
            alloc,
            parts.declaration_part().pointers(),
            parts.leaf(),
            parts.declaration_part().bounds(),
        ),
        DeclaratorAction::InitializerExpression => Ok(DeclarationPart::Initializer(
            Initializer::Expression(parts.expression_part().operand().expression),
        )),
        DeclaratorAction::InitializerList => initializer_list(
            parts.leaf(),
            parts.declaration_part().initializer(),
            parts.declaration_part().initializers(),
        ),
        DeclaratorAction::InitializersBehindComma => {
            parts.leaf();
            Ok(DeclarationPart::Initializers(parts.declaration_part().initializers()))
        },
        DeclaratorAction::InitializersAgain => Ok(DeclarationPart::Initializers(
            parts.declaration_part().initializers(),
        )),
        DeclaratorAction::Initializers => initializers(
            parts.declaration_part().initializer(),
            parts.declaration_part().initializers(),
        ),
        DeclaratorAction::NoInitializers => Ok(DeclarationPart::Initializers(Chain::new(alloc))),
        DeclaratorAction::Initialization => Ok(DeclarationPart::Initialization(initialization(
            parts.leaf(),
            parts.declaration_part().initializer(),
        ))),
        DeclaratorAction::NoInitialization => Ok(DeclarationPart::Initialization(None)),
        DeclaratorAction::InitDeclarators => init_declarators(alloc, parts),
        DeclaratorAction::NoInitDeclarators => Ok(DeclarationPart::InitDeclarators(Chain::new(
            alloc,
        ))),
        DeclaratorAction::Objects => Ok(DeclarationPart::Objects(objects(
            parts.declaration_part().bounds(),
            parts.declaration_part().initialization(),
            parts.declaration_part().init_declarators(),
        ))),
        DeclaratorAction::OnlyTypes => Ok(DeclarationPart::InitDeclarators(Chain::new(alloc))),
        DeclaratorAction::Declarators => declarators(
            alloc,
            parts.declaration_part().pointers(),
            parts.leaf(),
            parts.declaration_part().objects(),
        ),
    }
}

fn qualifiers(
    _: Leaf,
    mut qualifiers: Chain<Qualifier>,
    qualifier: Qualifier,
) -> Result<DeclarationPart, AllocError>
    ensures { IfOk result (λ part. declaration_part_view part ≡ PartData.qualifiers (qualifier ∷ qualifiers)) }
{
    qualifiers.put_front(qualifier)?;
    Ok(DeclarationPart::Qualifiers(qualifiers))
}

fn pointer(
    star: Leaf,
    qualifiers: Chain<Qualifier>,
    mut pointers: Chain<Pointer>,
) -> Result<DeclarationPart, AllocError>
    ensures { IfOk result (λ part. declaration_part_view part ≡ PartData.pointers ((record { place = (leaf_view star.entry).place; qualifiers = qualifiers }) ∷ (pointers_view pointers))) }
{
    pointers.put_front(Pointer {
        place: star.place,
        qualifiers: qualifiers.into_vec(),
    })?;
    Ok(DeclarationPart::Pointers(pointers))
}

fn bound(
    size: Option<Box<Expression>>,
    close: Leaf,
    mut bounds: Chain<Bound>,
) -> Result<DeclarationPart, AllocError>
    ensures { IfOk result (λ part. declaration_part_view part ≡ PartData.bounds ((Expressions.bound (Views.maybe_of (option_map boxed_view size)) (leaf_view close.entry).place) ∷ (map bound_view bounds))) }
{
    bounds.put_front(Bound {
        size,
        close: close.place,
    })?;
    Ok(DeclarationPart::Bounds(bounds))
}

fn one_declarator(
    alloc: Global,
    pointers: Chain<Pointer>,
    name: Leaf,
    bounds: Chain<Bound>,
) -> Result<DeclarationPart, AllocError>
    ensures { IfOk result (λ part. declaration_part_view part ≡ PartData.declarator (Expressions.declarator (pointers_view pointers) (leaf_view name.entry) (Views.bounds_of (map bound_view bounds)))) }
{
    Ok(DeclarationPart::Declarator(declarator(alloc, pointers, name, bounds)?))
}

fn initializer_list(
    brace: Leaf,
    first: Initializer,
    mut others: Chain<Initializer>,
) -> Result<DeclarationPart, AllocError>
    ensures { IfOk result (λ part. declaration_part_view part ≡ PartData.initializer (Statements.initial_list (leaf_view brace.entry).place (StatementViews.initializers_of ((initializer_view first) ∷ (map initializer_view others))))) }
{
    others.put_front(first)?;
    Ok(DeclarationPart::Initializer(Initializer::List {
        place: brace.place,
        items: others.into_vec(),
    }))
}

fn initializers(
    one: Initializer,
    mut initializers: Chain<Initializer>,
) -> Result<DeclarationPart, AllocError>
    ensures { IfOk result (λ part. declaration_part_view part ≡ PartData.initializers ((initializer_view one) ∷ (map initializer_view initializers))) }
{
    initializers.put_front(one)?;
    Ok(DeclarationPart::Initializers(initializers))
}

fn initialization(sign: Leaf, value: Initializer) -> Option<Initialization>
    ensures { option_map initialization_view result ≡ Some (record { place = (leaf_view sign.entry).place; value = (initializer_view value) }) }
{
    Some(Initialization {
        place: sign.place,
        value,
    })
}

fn init_declarators(alloc: Global, parts: &mut Parts) -> Result<DeclarationPart, AllocError>
    requires { Fits (kinds ActionOf.InitDeclarators) (parts_view parts.now) }
    ensures { IfOk result (λ part. declaration_part_view part ≡ node ActionOf.InitDeclarators (parts_view parts.old)) }
{
    parts.leaf();
    let pointers = parts.declaration_part().pointers();
    let name = parts.leaf();
    let bounds = parts.declaration_part().bounds();
    let initialization = parts.declaration_part().initialization();
    let mut declarators = parts.declaration_part().init_declarators();
    declarators.put_front(InitDeclarator {
        declarator: declarator(alloc, pointers, name, bounds)?,
        initialization,
    })?;
    Ok(DeclarationPart::InitDeclarators(declarators))
}

fn objects(
    bounds: Chain<Bound>,
    initialization: Option<Initialization>,
    others: Chain<InitDeclarator>,
) -> Objects
    ensures { objects_view result ≡ record { bounds = (map bound_view bounds); initialization = (option_map initialization_view initialization); others = (map init_declarator_view others) } }
{
    Objects {
        bounds,
        initialization,
        others,
    }
}

fn declarators(
    alloc: Global,
    pointers: Chain<Pointer>,
    name: Leaf,
    objects: Objects,
) -> Result<DeclarationPart, AllocError>
    ensures { IfOk result (λ part. declaration_part_view part ≡ PartData.init_declarators (all_declarators (pointers_view pointers) (leaf_view name.entry) (objects_view objects))) }
{
    Ok(DeclarationPart::InitDeclarators(all_declarators(alloc, pointers, name, objects)?))
}

/// A declarator.
fn declarator(
    alloc: Global,
    pointers: Chain<Pointer>,
    name: Leaf,
    bounds: Chain<Bound>,
) -> Result<Declarator, AllocError>
    ensures { IfOk result (λ d. declarator_view d ≡ Expressions.declarator (pointers_view pointers) (leaf_view name.entry) (Views.bounds_of (map bound_view bounds))) }
{
    Ok(Declarator {
        pointers: pointers.into_vec(),
        name: name.word(alloc)?,
        bounds: bounds.into_vec(),
    })
}

/// A declarator, and those behind it.
pub(crate) fn all_declarators(
    alloc: Global,
    pointers: Chain<Pointer>,
    name: Leaf,
    objects: Objects,
) -> Result<Chain<InitDeclarator>, AllocError>
    ensures { IfOk result (λ ds. map init_declarator_view ds ≡ all_declarators (pointers_view pointers) (leaf_view name.entry) (objects_view objects)) }
{
    let mut declarators = objects.others;
    declarators.put_front(InitDeclarator {
        declarator: declarator(alloc, pointers, name, objects.bounds)?,
        initialization: objects.initialization,
    })?;
    Ok(declarators)
}
