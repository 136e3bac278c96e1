ghost use Rattle.std.specs.Prelude.{◌≡◌, ◌∷◌, map, IfOk, Some};
ghost use Rattle.std.specs.Option.{option_map};
ghost use Rattle.c_rawtree.specs.Expressions;
ghost use Rattle.c_rawtree.specs.Views;
ghost use Rattle.c_rawtree.specs.Views.{pointers_view, boxed_view, specifier_view, bound_view};
ghost use Rattle.c_rawtree.specs.StatementViews.{parameter_view, external_view};
ghost use Rattle.c_parts.specs.PartData;
ghost use Rattle.c_parts.specs.PartViews.{leaf_view, parameter_name_view, name_rest_view, external_rest_view, external_part_view, parts_view};
ghost use Rattle.c_parts.specs.Reading.{Fits};
ghost use Rattle.c_nodes.specs.declared.external_nodes.ExternalAction.TheVariants as ActionOf;
ghost use Rattle.c_nodes.specs.ExternalNodes.{kinds, external, named, node};

use crate::declarator_nodes::all_declarators;
use c_parts::{
    Chain, ExternalPart, ExternalRest, FunctionRest, Leaf, NameRest, ParameterName, Parts,
};
use c_rawtree::{
    Bound, Declaration, Expression, External, Function, Parameter, Pointer, Specifier,
    TypeDefinition,
};
use std::alloc::{AllocError, Global};

/// What a production of external declarations makes of its parts.
#[derive(Clone, Copy)]
pub enum ExternalAction {
    /// One external declaration, and those behind it.
    Externals,
    /// No more external declarations.
    NoExternals,
    /// A translation unit (C11 6.9).
    Unit,
    /// `typedef specifiers pointers name ;` (C11 6.7.8).
    TypeDefinition,
    /// `specifiers ..`
    Declared,
    /// `;` where types alone are declared.
    OnlyTypes,
    /// `pointers name ..`
    Named,
    /// `( parameters ) ..`
    FunctionBehindName,
    /// `bounds [ = initialiser ] ..`
    ObjectsBehindName,
    /// `( parameter { , parameter } ) ( ; | block )` (C11 6.9.1).
    Function,
    /// `, parameter`, and those behind it.
    Parameters,
    /// No more parameters.
    NoParameters,
    /// `;` in place of a body.
    NoBody,
    /// The body of a function.
    SomeBody,
    /// `specifiers pointers [ name [ bound ] ]` (C11 6.7.6.3).
    Parameter,
    /// `name [ bound ]`
    ParameterName,
    /// No name.
    NoParameterName,
    /// `[ [ size ] ]`
    ParameterBound,
    /// No bound.
    NoParameterBound,
}

/// What the production makes of the parts.
pub(crate) fn external_node(
    alloc: Global,
    action: ExternalAction,
    parts: &mut Parts,
) -> Result<ExternalPart, AllocError>
    requires { Fits (kinds action) (parts_view parts.now) }
    ensures { IfOk result (λ p. external_part_view p ≡ node action (parts_view parts.old)) }
{
    match action {
        ExternalAction::Externals => externals(
            parts.external_part().external(),
            parts.external_part().externals(),
        ),
        ExternalAction::NoExternals => Ok(ExternalPart::Externals(Chain::new(alloc))),
        ExternalAction::Unit => Ok(ExternalPart::Externals(parts.external_part().externals())),
        ExternalAction::TypeDefinition => type_definition(alloc, parts),
        ExternalAction::Declared => Ok(ExternalPart::External(external(
            parts.declaration_part().specifiers(),
            parts.external_part().external_rest(),
        ))),
        ExternalAction::OnlyTypes => Ok(ExternalPart::ExternalRest(ExternalRest::Declarators(
            Chain::new(alloc),
        ))),
        ExternalAction::Named => name_and_rest(
            alloc,
            parts.declaration_part().pointers(),
            parts.leaf(),
            parts.external_part().name_rest(),
        ),
        ExternalAction::FunctionBehindName => Ok(ExternalPart::NameRest(NameRest::Function(
            parts.external_part().function_rest(),
        ))),
        ExternalAction::ObjectsBehindName => Ok(ExternalPart::NameRest(NameRest::Objects(
            parts.declaration_part().objects(),
        ))),
        ExternalAction::Function => function(parts),
        ExternalAction::Parameters => parameters(
            parts.leaf(),
            parts.external_part().parameter(),
            parts.external_part().parameters(),
        ),
        ExternalAction::NoParameters => Ok(ExternalPart::Parameters(Chain::new(alloc))),
        ExternalAction::NoBody => Ok(ExternalPart::OptionalBlock(None)),
        ExternalAction::SomeBody => Ok(ExternalPart::OptionalBlock(Some(
            parts.statement_part().block(),
        ))),
        ExternalAction::Parameter => Ok(ExternalPart::Parameter(parameter(
            parts.declaration_part().specifiers(),
            parts.declaration_part().pointers(),
            parts.external_part().parameter_name(),
        ))),
        ExternalAction::ParameterName => parameter_name(
            alloc,
            parts.leaf(),
            parts.external_part().optional_bound(),
        ),
        ExternalAction::NoParameterName => Ok(ExternalPart::ParameterName(ParameterName {
            name: None,
            bound: None,
        })),
        ExternalAction::ParameterBound => Ok(ExternalPart::OptionalBound(parameter_bound(
            parts.leaf(),
            parts.expression_part().optional_expression(),
            parts.leaf(),
        ))),
        ExternalAction::NoParameterBound => Ok(ExternalPart::OptionalBound(None)),
    }
}

fn externals(one: External, mut externals: Chain<External>) -> Result<ExternalPart, AllocError>
    ensures { IfOk result (λ part. external_part_view part ≡ PartData.externals ((external_view one) ∷ (map external_view externals))) }
{
    externals.put_front(one)?;
    Ok(ExternalPart::Externals(externals))
}

fn type_definition(alloc: Global, parts: &mut Parts) -> Result<ExternalPart, AllocError>
    requires { Fits (kinds ActionOf.TypeDefinition) (parts_view parts.now) }
    ensures { IfOk result (λ part. external_part_view part ≡ node ActionOf.TypeDefinition (parts_view parts.old)) }
{
    let place = parts.leaf().place;
    let specifiers = parts.declaration_part().specifiers();
    let pointers = parts.declaration_part().pointers();
    Ok(ExternalPart::External(External::TypeDefinition(TypeDefinition {
        place,
        specifiers: specifiers.into_vec(),
        pointers: pointers.into_vec(),
        name: parts.leaf().word(alloc)?,
    })))
}

fn name_and_rest(
    alloc: Global,
    pointers: Chain<Pointer>,
    name: Leaf,
    name_rest: NameRest,
) -> Result<ExternalPart, AllocError>
    ensures { IfOk result (λ part. external_part_view part ≡ PartData.external_rest (named (pointers_view pointers) (leaf_view name.entry) (name_rest_view name_rest))) }
{
    Ok(ExternalPart::ExternalRest(named(alloc, pointers, name, name_rest)?))
}

fn function(parts: &mut Parts) -> Result<ExternalPart, AllocError>
    requires { Fits (kinds ActionOf.Function) (parts_view parts.now) }
    ensures { IfOk result (λ part. external_part_view part ≡ node ActionOf.Function (parts_view parts.old)) }
{
    parts.leaf();
    let first = parts.external_part().parameter();
    let mut parameters = parts.external_part().parameters();
    parts.leaf();
    let body = parts.external_part().optional_block();
    parameters.put_front(first)?;
    Ok(ExternalPart::FunctionRest(FunctionRest { parameters, body }))
}

fn parameters(
    _: Leaf,
    one: Parameter,
    mut parameters: Chain<Parameter>,
) -> Result<ExternalPart, AllocError>
    ensures { IfOk result (λ part. external_part_view part ≡ PartData.parameters ((parameter_view one) ∷ (map parameter_view parameters))) }
{
    parameters.put_front(one)?;
    Ok(ExternalPart::Parameters(parameters))
}

fn parameter(
    specifiers: Chain<Specifier>,
    pointers: Chain<Pointer>,
    name: ParameterName,
) -> Parameter
    ensures { parameter_view result ≡ record { specifiers = Views.specifiers_of (map specifier_view specifiers); pointers = (pointers_view pointers); name = (parameter_name_view name).name; bound = (parameter_name_view name).bound } }
{
    Parameter {
        specifiers: specifiers.into_vec(),
        pointers: pointers.into_vec(),
        name: name.name,
        bound: name.bound,
    }
}

fn parameter_name(
    alloc: Global,
    name: Leaf,
    bound: Option<Bound>,
) -> Result<ExternalPart, AllocError>
    ensures { IfOk result (λ part. external_part_view part ≡ PartData.parameter_name (record { name = Some (leaf_view name.entry); bound = (option_map bound_view bound) })) }
{
    Ok(ExternalPart::ParameterName(ParameterName {
        name: Some(name.word(alloc)?),
        bound,
    }))
}

fn parameter_bound(_: Leaf, size: Option<Box<Expression>>, close: Leaf) -> Option<Bound>
    ensures { option_map bound_view result ≡ Some (Expressions.bound (Views.maybe_of (option_map boxed_view size)) (leaf_view close.entry).place) }
{
    Some(Bound {
        size,
        close: close.place,
    })
}

/// A declaration or a function.
fn external(specifiers: Chain<Specifier>, behind: ExternalRest) -> External
    ensures { external_view result ≡ external (map specifier_view specifiers) (external_rest_view behind) }
{
    match behind {
        ExternalRest::Declarators(declarators) => External::Declaration(Declaration {
            specifiers: specifiers.into_vec(),
            declarators: declarators.into_vec(),
        }),
        ExternalRest::Function {
            pointers,
            name,
            rest,
        } => External::Function(Function {
            specifiers: specifiers.into_vec(),
            pointers: pointers.into_vec(),
            name,
            parameters: rest.parameters.into_vec(),
            body: rest.body,
        }),
    }
}

/// What stands behind the specifiers, where a name does.
fn named(
    alloc: Global,
    pointers: Chain<Pointer>,
    name: Leaf,
    behind: NameRest,
) -> Result<ExternalRest, AllocError>
    ensures { IfOk result (λ r. external_rest_view r ≡ named (pointers_view pointers) (leaf_view name.entry) (name_rest_view behind)) }
{
    match behind {
        NameRest::Objects(objects) => Ok(ExternalRest::Declarators(all_declarators(
            alloc, pointers, name, objects,
        )?)),
        NameRest::Function(rest) => Ok(ExternalRest::Function {
            pointers,
            name: name.word(alloc)?,
            rest,
        }),
    }
}
