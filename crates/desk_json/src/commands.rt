//! The commands that bodies are.
ghost use Rattle.std.specs.Prelude.{◌≡◌, IfOk};
ghost use Rattle.std.specs.Option.{option_and_then};
ghost use Rattle.serde_json.specs.View.{view};
ghost use Rattle.desk_json.specs.Bodies.{alone, category_change_in, deviation_in, json_of, permit_in, project_in};

use crate::fields::{category, guideline, has_size, name, name_or_null, names};
use crate::reading::parse;
use desk_tables::Command;
use misra_base::Name;
use serde_json::Value;
use std::alloc::{AllocError, Global};

fn project(alloc: Global, body: &Value) -> Result<Option<Command>, AllocError>
    ensures { IfOk result (λ command. command ≡ project_in (view body.now)) }
{
    if !has_size(body, 2) {
        return Ok(None);
    }
    let Some(name) = name(alloc, body, "name")? else {
        return Ok(None);
    };
    let Some(members) = names(alloc, body, "members")? else {
        return Ok(None);
    };
    Ok(Some(Command::MakeProject { name, members }))
}

fn permit(alloc: Global, body: &Value) -> Result<Option<Command>, AllocError>
    ensures { IfOk result (λ command. command ≡ permit_in (view body.now)) }
{
    if !has_size(body, 3) {
        return Ok(None);
    }
    let Some(guideline) = guideline(body) else {
        return Ok(None);
    };
    let Some(permit) = name(alloc, body, "name")? else {
        return Ok(None);
    };
    let Some(reason) = name(alloc, body, "reason")? else {
        return Ok(None);
    };
    Ok(Some(Command::AddPermit {
        name: permit,
        guideline,
        reason,
    }))
}

fn change(project: Name, body: &Value) -> Option<Command>
    ensures { result ≡ category_change_in project (view body.now) }
{
    if !has_size(body, 2) {
        return None;
    }
    let category = category(body)?;
    let guideline = guideline(body)?;
    Some(Command::Recategorise {
        project,
        guideline,
        category,
    })
}

fn deviation(alloc: Global, project: Name, body: &Value) -> Result<Option<Command>, AllocError>
    ensures { IfOk result (λ command. command ≡ deviation_in project (view body.now)) }
{
    if !has_size(body, 5) {
        return Ok(None);
    }
    let Some(function) = name(alloc, body, "function")? else {
        return Ok(None);
    };
    let Some(guideline) = guideline(body) else {
        return Ok(None);
    };
    let Some(object) = name(alloc, body, "object")? else {
        return Ok(None);
    };
    let Some(permit) = name_or_null(alloc, body, "permit")? else {
        return Ok(None);
    };
    let Some(reason) = name(alloc, body, "reason")? else {
        return Ok(None);
    };
    Ok(Some(Command::Raise {
        project,
        guideline,
        function,
        object,
        reason,
        permit,
    }))
}

/// The command to make a project, None where the body is none.
pub fn new_project(alloc: Global, body: &[u8]) -> Result<Option<Command>, AllocError>
    ensures { IfOk result (λ command. command ≡ option_and_then project_in (json_of body.now)) }
{
    match parse(alloc, body)? {
        Some(body) => project(alloc, &body),
        None => Ok(None),
    }
}

/// The command to add a permit, None where the body is none.
pub fn new_permit(alloc: Global, body: &[u8]) -> Result<Option<Command>, AllocError>
    ensures { IfOk result (λ command. command ≡ option_and_then permit_in (json_of body.now)) }
{
    match parse(alloc, body)? {
        Some(body) => permit(alloc, &body),
        None => Ok(None),
    }
}

/// The command to raise a deviation in the project, None where the body is none.
pub fn new_deviation(
    alloc: Global,
    project: Name,
    body: &[u8],
) -> Result<Option<Command>, AllocError>
    ensures { IfOk result (λ command. command ≡ option_and_then (deviation_in project) (json_of body.now)) }
{
    match parse(alloc, body)? {
        Some(body) => deviation(alloc, project, &body),
        None => Ok(None),
    }
}

/// The command to change a category in the project's plan, None where the body is none.
pub fn category_change(
    alloc: Global,
    project: Name,
    body: &[u8],
) -> Result<Option<Command>, AllocError>
    ensures { IfOk result (λ command. command ≡ option_and_then (category_change_in project) (json_of body.now)) }
{
    match parse(alloc, body)? {
        Some(body) => Ok(change(project, &body)),
        None => Ok(None),
    }
}

/// The command, None where the body is not empty.
pub fn empty(command: Command, body: &[u8]) -> Option<Command>
    ensures { result ≡ alone body.now command }
{
    if body.is_empty() { Some(command) } else { None }
}
