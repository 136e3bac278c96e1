ghost use Rattle.std.specs.Prelude.{◌≡◌, ◌++◌, map, OnOk, IfOk};
ghost use Rattle.std.specs.Option.{option_map, option_copied};
ghost use Rattle.c_tree.specs.Views.{specifier_view, specifiers_view, boxed_view};
ghost use Rattle.c_tree.specs.StatementViews.{initializers_of, initializer_view, initialization_view, init_declarator_view, declaration_view, simple_view, for_start_view};
ghost use Rattle.c_identifiers.specs.Statements.{reference_tag, lone_reference, lone_tag, objects_events, initializer_events, initializers_events, initialization_events, init_declarators_events, declaration_events, simple_events, for_start_events, each};
ghost use Rattle.c_identifiers.specs.Expressions.{expression_events};
ghost use Rattle.c_identifiers.specs.declared.event.Usage.TheVariants.{Evaluated};

use crate::event::{Event, Form, Usage};
use crate::expression_events::{add_declaration, add_declarator, add_expression, add_specifiers};
use crate::roles::{Level, object_role, tag_role};
use c_names::Kind;
use c_tree::{
    Declaration, Expression, ForStart, InitDeclarator, Initialization, Initializer, Simple,
    Specifier, Word,
};
use std::alloc::{AllocError, Global};

/// The tag of `struct tag ;`, which declares it (C11 6.7.2.3p7).
fn lone_tag(declaration: &Declaration) -> Option<&Word>
    ensures { option_copied result ≡ lone_tag (declaration_view declaration.now) }
{
    if declaration.declarators.is_empty() {
        lone_reference(&declaration.specifiers)
    } else {
        None
    }
}

fn lone_reference(specifiers: &[Specifier]) -> Option<&Word>
    ensures { option_copied result ≡ lone_reference (specifiers_view specifiers.now) }
{
    if specifiers.len() != 1 {
        return None;
    }
    reference_tag(&specifiers[0])
}

fn reference_tag(specifier: &Specifier) -> Option<&Word>
    ensures { option_copied result ≡ reference_tag (specifier_view specifier.now) }
{
    match specifier {
        Specifier::StructReference { tag, .. } => Some(tag),
        _ => None,
    }
}

pub(crate) fn add_declaration_item(
    alloc: Global,
    events: &mut Vec<Event>,
    level: Level,
    declaration: &Declaration,
) -> Result<(), AllocError>
    ensures { OnOk result (events.new.items ≡ events.old.items ++ declaration_events level (declaration_view declaration.now)) }
{
    match lone_tag(declaration) {
        Some(tag) => {
            let role = tag_role(Kind::Structure, false);
            add_declaration(alloc, events, role, Form::Other, tag)
        }
        None => add_objects(alloc, events, level, declaration),
    }
}

fn add_objects(
    alloc: Global,
    events: &mut Vec<Event>,
    level: Level,
    declaration: &Declaration,
) -> Result<(), AllocError>
    ensures { OnOk result (events.new.items ≡ events.old.items ++ objects_events level (declaration_view declaration.now)) }
{
    add_specifiers(alloc, events, Usage::Evaluated, &declaration.specifiers)?;
    add_init_declarators(
        alloc,
        events,
        level,
        &declaration.specifiers,
        &declaration.declarators,
    )
}

fn add_init_declarators(
    alloc: Global,
    events: &mut Vec<Event>,
    level: Level,
    specifiers: &[Specifier],
    declarators: &[InitDeclarator],
) -> Result<(), AllocError>
    ensures { OnOk result (events.new.items ≡ events.old.items ++ init_declarators_events level (specifiers_view specifiers.now) (map init_declarator_view declarators.now)) }
{
    for declarator in declarators {
        let role = object_role(level, specifiers, declarator.initialization.is_some());
        add_declarator(
            alloc,
            events,
            Usage::Evaluated,
            role,
            &declarator.declarator,
        )?;
        add_initialization(alloc, events, &declarator.initialization)?;
    }
    Ok(())
}

/// An object is visible in its own value (C11 6.2.1p7).
fn add_initialization(
    alloc: Global,
    events: &mut Vec<Event>,
    initialization: &Option<Initialization>,
) -> Result<(), AllocError>
    ensures { OnOk result (events.new.items ≡ events.old.items ++ initialization_events (option_map initialization_view initialization.now)) }
{
    match initialization {
        Some(initialization) => add_initializer(alloc, events, &initialization.value),
        None => Ok(()),
    }
}

#[cycle(initializer)]
fn add_initializer(
    alloc: Global,
    events: &mut Vec<Event>,
    initializer: &Initializer,
) -> Result<(), AllocError>
    ensures { OnOk result (events.new.items ≡ events.old.items ++ initializer_events (initializer_view initializer.now)) }
{
    match initializer {
        Initializer::Expression(expression) => {
            add_expression(alloc, events, Usage::Evaluated, expression)
        }
        Initializer::List { items, .. } => add_initializers(alloc, events, items),
    }
}

#[cycle(initializer)]
fn add_initializers(
    alloc: Global,
    events: &mut Vec<Event>,
    initializers: &[Initializer],
) -> Result<(), AllocError>
    ensures { OnOk result (events.new.items ≡ events.old.items ++ initializers_events (initializers_of (map initializer_view initializers.now))) }
{
    for initializer in initializers {
        add_initializer(alloc, events, initializer)?;
    }
    Ok(())
}

/// An expression, where there is one.
pub(crate) fn add_optional_expression(
    alloc: Global,
    events: &mut Vec<Event>,
    expression: &Option<Box<Expression>>,
) -> Result<(), AllocError>
    ensures { OnOk result (events.new.items ≡ events.old.items ++ each (expression_events Evaluated) (option_map boxed_view expression.now)) }
{
    match expression {
        Some(expression) => add_expression(alloc, events, Usage::Evaluated, expression),
        None => Ok(()),
    }
}

pub(crate) fn add_simple(
    alloc: Global,
    events: &mut Vec<Event>,
    simple: &Simple,
) -> Result<(), AllocError>
    ensures { OnOk result (events.new.items ≡ events.old.items ++ simple_events (simple_view simple.now)) }
{
    match simple {
        Simple::Expression(expression) => {
            add_expression(alloc, events, Usage::Evaluated, expression)
        }
        Simple::Assignment { target, value, .. } => {
            add_expression(alloc, events, Usage::Evaluated, target)?;
            add_expression(alloc, events, Usage::Evaluated, value)
        }
        Simple::Prefix { operand, .. } | Simple::Postfix { operand, .. } => {
            add_expression(alloc, events, Usage::Evaluated, operand)
        }
    }
}

pub(crate) fn add_for_start(
    alloc: Global,
    events: &mut Vec<Event>,
    start: &ForStart,
) -> Result<(), AllocError>
    ensures { OnOk result (events.new.items ≡ events.old.items ++ for_start_events (for_start_view start.now)) }
{
    match start {
        ForStart::Declaration {
            specifiers,
            name,
            value,
            ..
        } => {
            add_specifiers(alloc, events, Usage::Evaluated, specifiers)?;
            let role = object_role(Level::Block, specifiers, true);
            add_declaration(alloc, events, role, Form::Other, name)?;
            add_expression(alloc, events, Usage::Evaluated, value)
        }
        ForStart::Simple(simple) => add_simple(alloc, events, simple),
    }
}
