ghost use Rattle.std.specs.Prelude.{◌≡◌, ◌++◌, map, OnOk};
ghost use Rattle.c_tree.specs.Views.{expression_view, expressions_of, operation_view, operations_of, postfix_view, postfixes_of, type_name_view, specifier_view, specifiers_view, member_view, members_of, declarator_view, declarators_of, bound_view, bounds_of, enumerator_view, enumerators_of};
ghost use Rattle.c_identifiers.specs.Expressions.{inner, callee, is_thread_creation, creates, argument_usage, next_argument, use_of, declaration_of, mention_of, expression_events, expressions_events, operations_events, postfix_events, postfixes_events, type_name_events, specifier_events, specifiers_events, members_events, declarator_events, declarators_events, bound_events, bounds_events, enumerators_events, optional_events, optional_view, tag_events};

use crate::event::{Event, Form, Role, Usage};
use crate::roles::{enumerator_role, member_role, tag_role};
use crate::types::copy_of;
use c_names::{Kind, NameSpace};
use c_tree::{
    Bound, Declarator, Enumerator, Expression, MemberDeclaration, Operation, Postfix, Specifier,
    TypeName, Word,
};
use misra_base::Place;
use std::alloc::{AllocError, Global};

/// Which arguments of a call come next.
#[derive(Clone, Copy, Debug, PartialEq, Eq)]
pub(crate) enum Argument {
    /// The one before the function of a thread that is created.
    Thread,
    /// The function of a thread that is created.
    Function,
    Other,
}

/// How the parts of an expression are used.
fn inner(usage: Usage) -> Usage
    ensures { result ≡ inner usage }
{
    match usage {
        Usage::Unevaluated => Usage::Unevaluated,
        Usage::Evaluated | Usage::Called => Usage::Evaluated,
    }
}

/// How what stands before postfixes is used: it is called where the first of them calls.
fn callee(usage: Usage, postfixes: &[Postfix]) -> Usage
    ensures { result ≡ callee usage (postfixes_of (map postfix_view postfixes.now)) }
{
    match (usage, postfixes.first()) {
        (Usage::Evaluated | Usage::Called, Some(Postfix::Call { .. })) => Usage::Called,
        (usage, _) => inner(usage),
    }
}

/// Whether an expression is the name `thrd_create`, brackets aside.
fn is_thread_creation(expression: &Expression) -> bool
    ensures { result ≡ is_thread_creation (expression_view expression.now) }
{
    match expression {
        Expression::Identifier(word) => word.text.bytes() == b"thrd_create".as_slice(),
        Expression::Parenthesized(expression) => is_thread_creation(expression),
        _ => false,
    }
}

fn creates(usage: Usage, callee: &Expression) -> Argument
    ensures { result ≡ creates usage (expression_view callee.now) }
{
    match usage {
        Usage::Called if is_thread_creation(callee) => Argument::Thread,
        _ => Argument::Other,
    }
}

fn argument_usage(usage: Usage, argument: Argument) -> Usage
    ensures { result ≡ argument_usage usage argument }
{
    match argument {
        Argument::Function => Usage::Called,
        Argument::Thread | Argument::Other => usage,
    }
}

fn next_argument(argument: Argument) -> Argument
    ensures { result ≡ next_argument argument }
{
    match argument {
        Argument::Thread => Argument::Function,
        Argument::Function | Argument::Other => Argument::Other,
    }
}

fn add_use(
    alloc: Global,
    events: &mut Vec<Event>,
    space: NameSpace,
    usage: Usage,
    word: &Word,
) -> Result<(), AllocError>
    ensures { OnOk result (events.new.items ≡ events.old.items ++ use_of space usage word.now) }
{
    let word = copy_of(alloc, word)?;
    events.push(Event::Use { space, usage, word })?;
    Ok(())
}

pub(crate) fn add_declaration(
    alloc: Global,
    events: &mut Vec<Event>,
    role: Role,
    form: Form,
    word: &Word,
) -> Result<(), AllocError>
    ensures { OnOk result (events.new.items ≡ events.old.items ++ declaration_of role form word.now) }
{
    let word = copy_of(alloc, word)?;
    events.push(Event::Declare { role, form, word })?;
    Ok(())
}

pub(crate) fn add_mention(
    alloc: Global,
    events: &mut Vec<Event>,
    word: &Word,
) -> Result<(), AllocError>
    ensures { OnOk result (events.new.items ≡ events.old.items ++ mention_of word.now) }
{
    let word = copy_of(alloc, word)?;
    events.push(Event::Mention(word))?;
    Ok(())
}

#[cycle(walk)]
pub(crate) fn add_expression(
    alloc: Global,
    events: &mut Vec<Event>,
    usage: Usage,
    expression: &Expression,
) -> Result<(), AllocError>
    ensures { OnOk result (events.new.items ≡ events.old.items ++ expression_events usage (expression_view expression.now)) }
{
    match expression {
        Expression::Identifier(word) => add_use(alloc, events, NameSpace::Ordinary, usage, word),
        Expression::Constant(_) => Ok(()),
        Expression::Parenthesized(expression) => add_expression(alloc, events, usage, expression),
        Expression::Binary { first, rest } => {
            add_expression(alloc, events, inner(usage), first)?;
            add_operations(alloc, events, inner(usage), rest)
        }
        Expression::Conditional {
            condition,
            then,
            otherwise,
            ..
        } => {
            add_expression(alloc, events, inner(usage), condition)?;
            add_expression(alloc, events, inner(usage), then)?;
            add_expression(alloc, events, inner(usage), otherwise)
        }
        Expression::Unary { operand, .. } => {
            add_expression(alloc, events, inner(usage), operand)
        }
        Expression::SizeofExpression { operand, .. } => {
            add_expression(alloc, events, Usage::Unevaluated, operand)
        }
        Expression::SizeofType { type_name, .. } => {
            add_type_name(alloc, events, Usage::Unevaluated, type_name)
        }
        Expression::Cast {
            type_name,
            operand,
            ..
        } => {
            add_type_name(alloc, events, inner(usage), type_name)?;
            add_expression(alloc, events, inner(usage), operand)
        }
        Expression::Postfix { operand, postfixes } => {
            let called = callee(usage, postfixes);
            let argument = creates(called, operand);
            add_expression(alloc, events, called, operand)?;
            add_postfixes(alloc, events, inner(usage), argument, postfixes)
        }
    }
}

#[cycle(walk)]
fn add_operations(
    alloc: Global,
    events: &mut Vec<Event>,
    usage: Usage,
    operations: &[Operation],
) -> Result<(), AllocError>
    ensures { OnOk result (events.new.items ≡ events.old.items ++ operations_events usage (operations_of (map operation_view operations.now))) }
{
    for operation in operations {
        add_expression(alloc, events, usage, &operation.operand)?;
    }
    Ok(())
}

/// The first postfix alone may create a thread.
#[cycle(walk)]
fn add_postfixes(
    alloc: Global,
    events: &mut Vec<Event>,
    usage: Usage,
    argument: Argument,
    postfixes: &[Postfix],
) -> Result<(), AllocError>
    ensures { OnOk result (events.new.items ≡ events.old.items ++ postfixes_events usage argument (postfixes_of (map postfix_view postfixes.now))) }
{
    let mut next = argument;
    for postfix in postfixes {
        add_postfix(alloc, events, usage, next, postfix)?;
        next = Argument::Other;
    }
    Ok(())
}

#[cycle(walk)]
fn add_postfix(
    alloc: Global,
    events: &mut Vec<Event>,
    usage: Usage,
    argument: Argument,
    postfix: &Postfix,
) -> Result<(), AllocError>
    ensures { OnOk result (events.new.items ≡ events.old.items ++ postfix_events usage argument (postfix_view postfix.now)) }
{
    match postfix {
        Postfix::Index { index, .. } => add_expression(alloc, events, usage, index),
        Postfix::Call { arguments, .. } => {
            add_arguments(alloc, events, usage, argument, arguments)
        }
        Postfix::Member { member, .. } | Postfix::Arrow { member, .. } => {
            add_mention(alloc, events, member)
        }
    }
}

#[cycle(walk)]
fn add_arguments(
    alloc: Global,
    events: &mut Vec<Event>,
    usage: Usage,
    argument: Argument,
    arguments: &[Expression],
) -> Result<(), AllocError>
    ensures { OnOk result (events.new.items ≡ events.old.items ++ expressions_events usage argument (expressions_of (map expression_view arguments.now))) }
{
    let mut next = argument;
    for expression in arguments {
        add_expression(alloc, events, argument_usage(usage, next), expression)?;
        next = next_argument(next);
    }
    Ok(())
}

#[cycle(walk)]
fn add_type_name(
    alloc: Global,
    events: &mut Vec<Event>,
    usage: Usage,
    type_name: &TypeName,
) -> Result<(), AllocError>
    ensures { OnOk result (events.new.items ≡ events.old.items ++ type_name_events usage (type_name_view type_name.now)) }
{
    add_specifiers(alloc, events, usage, &type_name.specifiers)
}

#[cycle(walk)]
pub(crate) fn add_specifiers(
    alloc: Global,
    events: &mut Vec<Event>,
    usage: Usage,
    specifiers: &[Specifier],
) -> Result<(), AllocError>
    ensures { OnOk result (events.new.items ≡ events.old.items ++ specifiers_events usage (specifiers_view specifiers.now)) }
{
    for specifier in specifiers {
        add_specifier(alloc, events, usage, specifier)?;
    }
    Ok(())
}

#[cycle(walk)]
fn add_specifier(
    alloc: Global,
    events: &mut Vec<Event>,
    usage: Usage,
    specifier: &Specifier,
) -> Result<(), AllocError>
    ensures { OnOk result (events.new.items ≡ events.old.items ++ specifier_events usage (specifier_view specifier.now)) }
{
    match specifier {
        Specifier::Keyword { .. } | Specifier::LibraryType(_) => Ok(()),
        Specifier::TypedefName(word) => { add_use(alloc, events, NameSpace::Ordinary, usage, word) }
        Specifier::StructReference { tag, .. } | Specifier::EnumReference { tag, .. } => {
            add_use(alloc, events, NameSpace::Tags, usage, tag)
        }
        Specifier::StructDeclaration {
            place,
            tag,
            members,
            ..
        } => {
            add_tag(alloc, events, Kind::Structure, tag)?;
            add_members(alloc, events, usage, *place, members)
        }
        Specifier::EnumDeclaration {
            tag,
            enumerators,
            ..
        } => {
            add_tag(alloc, events, Kind::Enumeration, tag)?;
            add_enumerators(alloc, events, usage, enumerators)
        }
    }
}

/// A tag begins to be visible before what stands in its braces (C11 6.2.1p7).
fn add_tag(
    alloc: Global,
    events: &mut Vec<Event>,
    kind: Kind,
    tag: &Option<Word>,
) -> Result<(), AllocError>
    ensures { OnOk result (events.new.items ≡ events.old.items ++ tag_events kind tag.now) }
{
    match tag {
        Some(word) => add_declaration(alloc, events, tag_role(kind, true), Form::Other, word),
        None => Ok(()),
    }
}

#[cycle(walk)]
fn add_members(
    alloc: Global,
    events: &mut Vec<Event>,
    usage: Usage,
    structure: Place,
    members: &[MemberDeclaration],
) -> Result<(), AllocError>
    ensures { OnOk result (events.new.items ≡ events.old.items ++ members_events usage structure (members_of (map member_view members.now))) }
{
    for member in members {
        add_specifiers(alloc, events, usage, &member.specifiers)?;
        add_member_declarators(alloc, events, usage, structure, &member.declarators)?;
    }
    Ok(())
}

#[cycle(walk)]
fn add_member_declarators(
    alloc: Global,
    events: &mut Vec<Event>,
    usage: Usage,
    structure: Place,
    declarators: &[Declarator],
) -> Result<(), AllocError>
    ensures { OnOk result (events.new.items ≡ events.old.items ++ declarators_events usage structure (declarators_of (map declarator_view declarators.now))) }
{
    for declarator in declarators {
        add_declarator(alloc, events, usage, member_role(structure), declarator)?;
    }
    Ok(())
}

/// An identifier begins to be visible behind its declarator (C11 6.2.1p7).
#[cycle(walk)]
pub(crate) fn add_declarator(
    alloc: Global,
    events: &mut Vec<Event>,
    usage: Usage,
    role: Role,
    declarator: &Declarator,
) -> Result<(), AllocError>
    ensures { OnOk result (events.new.items ≡ events.old.items ++ declarator_events usage role (declarator_view declarator.now)) }
{
    add_mention(alloc, events, &declarator.name)?;
    add_bounds(alloc, events, usage, &declarator.bounds)?;
    add_declaration(alloc, events, role, Form::Other, &declarator.name)
}

#[cycle(walk)]
fn add_bounds(
    alloc: Global,
    events: &mut Vec<Event>,
    usage: Usage,
    bounds: &[Bound],
) -> Result<(), AllocError>
    ensures { OnOk result (events.new.items ≡ events.old.items ++ bounds_events usage (bounds_of (map bound_view bounds.now))) }
{
    for bound in bounds {
        add_bound(alloc, events, usage, bound)?;
    }
    Ok(())
}

#[cycle(walk)]
pub(crate) fn add_bound(
    alloc: Global,
    events: &mut Vec<Event>,
    usage: Usage,
    bound: &Bound,
) -> Result<(), AllocError>
    ensures { OnOk result (events.new.items ≡ events.old.items ++ bound_events usage (bound_view bound.now)) }
{
    match &bound.size {
        Some(size) => add_expression(alloc, events, usage, size),
        None => Ok(()),
    }
}

/// An enumerator begins to be visible behind its value (C11 6.2.1p7).
#[cycle(walk)]
fn add_enumerators(
    alloc: Global,
    events: &mut Vec<Event>,
    usage: Usage,
    enumerators: &[Enumerator],
) -> Result<(), AllocError>
    ensures { OnOk result (events.new.items ≡ events.old.items ++ enumerators_events usage (enumerators_of (map enumerator_view enumerators.now))) }
{
    for enumerator in enumerators {
        add_mention(alloc, events, &enumerator.name)?;
        add_optional(alloc, events, usage, &enumerator.value)?;
        add_declaration(
            alloc,
            events,
            enumerator_role(),
            Form::Other,
            &enumerator.name,
        )?;
    }
    Ok(())
}

#[cycle(walk)]
fn add_optional(
    alloc: Global,
    events: &mut Vec<Event>,
    usage: Usage,
    expression: &Option<Box<Expression>>,
) -> Result<(), AllocError>
    ensures { OnOk result (events.new.items ≡ events.old.items ++ optional_events usage (optional_view expression.now)) }
{
    match expression {
        Some(expression) => add_expression(alloc, events, usage, expression),
        None => Ok(()),
    }
}
