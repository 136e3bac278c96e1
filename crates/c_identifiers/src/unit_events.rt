ghost use Rattle.std.specs.Prelude.{◌≡◌, ◌++◌, map, OnOk, IfOk};
ghost use Rattle.std.specs.Option.{option_map};
ghost use Rattle.c_tree.specs.Views.{bound_view};
ghost use Rattle.c_tree.specs.StatementViews.{block_view, parameter_view, type_definition_view, function_view, external_view, tree_view};
ghost use Rattle.c_identifiers.specs.Units.{parameter_bound_events, parameter_name_events, parameters_events, parameter_forms, function_body_events, function_scope_events, function_events, typedef_events, external_events, externals_events, events_of};

use crate::declaration_events::add_declaration_item;
use crate::event::{Event, Form, Usage};
use crate::expression_events::{add_bound, add_declaration, add_mention, add_specifiers};
use crate::roles::{Level, function_role, parameter_role, typedef_role};
use crate::statement_events::add_items;
use crate::types::{function_form, parameter_form, typedef_form};
use c_tree::{Block, Bound, External, Function, Parameter, Tree, TypeDefinition, Word};
use std::alloc::{AllocError, Global};

/// What scopes see of a tree.
pub fn events(alloc: Global, tree: &Tree) -> Result<Vec<Event>, AllocError>
    ensures { IfOk result (λ events. events.items ≡ events_of (tree_view tree.now)) }
{
    let mut events = Vec::new(alloc);
    for external in &tree.externals {
        add_external(alloc, &mut events, external)?;
    }
    Ok(events)
}

fn add_external(
    alloc: Global,
    events: &mut Vec<Event>,
    external: &External,
) -> Result<(), AllocError>
    ensures { OnOk result (events.new.items ≡ events.old.items ++ external_events (external_view external.now)) }
{
    match external {
        External::TypeDefinition(definition) => add_typedef(alloc, events, definition),
        External::Declaration(declaration) => {
            add_declaration_item(alloc, events, Level::File, declaration)
        }
        External::Function(function) => add_function(alloc, events, function),
    }
}

fn add_typedef(
    alloc: Global,
    events: &mut Vec<Event>,
    definition: &TypeDefinition,
) -> Result<(), AllocError>
    ensures { OnOk result (events.new.items ≡ events.old.items ++ typedef_events (type_definition_view definition.now)) }
{
    add_specifiers(alloc, events, Usage::Evaluated, &definition.specifiers)?;
    let form = typedef_form(alloc, definition)?;
    add_declaration(alloc, events, typedef_role(), form, &definition.name)
}

fn add_function(
    alloc: Global,
    events: &mut Vec<Event>,
    function: &Function,
) -> Result<(), AllocError>
    ensures { OnOk result (events.new.items ≡ events.old.items ++ function_events (function_view function.now)) }
{
    add_specifiers(alloc, events, Usage::Evaluated, &function.specifiers)?;
    add_mention(alloc, events, &function.name)?;
    events.push(Event::Open)?;
    add_function_scope(alloc, events, function)?;
    events.push(Event::Close)?;
    Ok(())
}

/// The name begins to be visible behind the parameters (C11 6.2.1p7), and the body is in their scope (C11 6.2.1p4).
fn add_function_scope(
    alloc: Global,
    events: &mut Vec<Event>,
    function: &Function,
) -> Result<(), AllocError>
    ensures { OnOk result (events.new.items ≡ events.old.items ++ function_scope_events (function_view function.now)) }
{
    add_parameters(alloc, events, &function.parameters)?;
    add_parameter_forms(alloc, events, &function.parameters)?;
    let form = function_form(alloc, function)?;
    let role = function_role(&function.specifiers, function.body.is_some());
    add_declaration(alloc, events, role, form, &function.name)?;
    add_body(alloc, events, &function.body)
}

fn add_parameters(
    alloc: Global,
    events: &mut Vec<Event>,
    parameters: &[Parameter],
) -> Result<(), AllocError>
    ensures { OnOk result (events.new.items ≡ events.old.items ++ parameters_events (map parameter_view parameters.now)) }
{
    for parameter in parameters {
        add_specifiers(alloc, events, Usage::Evaluated, &parameter.specifiers)?;
        add_parameter_name(alloc, events, &parameter.name, &parameter.bound)?;
    }
    Ok(())
}

fn add_parameter_name(
    alloc: Global,
    events: &mut Vec<Event>,
    name: &Option<Word>,
    bound: &Option<Bound>,
) -> Result<(), AllocError>
    ensures { OnOk result (events.new.items ≡ events.old.items ++ parameter_name_events name.now (option_map bound_view bound.now)) }
{
    match name {
        Some(name) => {
            add_mention(alloc, events, name)?;
            add_parameter_bound(alloc, events, bound)?;
            add_declaration(alloc, events, parameter_role(), Form::Other, name)
        }
        None => add_parameter_bound(alloc, events, bound),
    }
}

fn add_parameter_bound(
    alloc: Global,
    events: &mut Vec<Event>,
    bound: &Option<Bound>,
) -> Result<(), AllocError>
    ensures { OnOk result (events.new.items ≡ events.old.items ++ parameter_bound_events (option_map bound_view bound.now)) }
{
    match bound {
        Some(bound) => add_bound(alloc, events, Usage::Evaluated, bound),
        None => Ok(()),
    }
}

fn add_parameter_forms(
    alloc: Global,
    events: &mut Vec<Event>,
    parameters: &[Parameter],
) -> Result<(), AllocError>
    ensures { OnOk result (events.new.items ≡ events.old.items ++ parameter_forms (map parameter_view parameters.now)) }
{
    for parameter in parameters {
        let form = parameter_form(alloc, parameter)?;
        events.push(Event::Parameter(form))?;
    }
    Ok(())
}

fn add_body(alloc: Global, events: &mut Vec<Event>, body: &Option<Block>) -> Result<(), AllocError>
    ensures { OnOk result (events.new.items ≡ events.old.items ++ function_body_events (option_map block_view body.now)) }
{
    match body {
        Some(body) => add_items(alloc, events, &body.items),
        None => Ok(()),
    }
}
