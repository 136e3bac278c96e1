//! Refusal 13: the forms of names and texts.
ghost use Rattle.std.specs.Prelude.{◌≡◌, false, [], ◌∷◌};
ghost use Rattle.std.specs.Char.{is_ascii_graphic};
ghost use Rattle.std.specs.List.{list_all};
ghost use Rattle.std.specs.Option.{option_copied};
ghost use Rattle.desk_core.specs.Answering.{Passes, is_fault};
ghost use Rattle.desk_core.specs.Forms as forms;
ghost use Rattle.desk_core.specs.Forms.{bad_caller, bad_choice, bad_fields, bad_text, unless_formed};
ghost use Rattle.desk_core.specs.Refusals.{first_refusal};

use crate::caller::{Caller, contains};
use crate::entries::are_single;
use crate::stop::{DeskStop, Field};
use desk_tables::Command;
use misra_base::{Name, NameList};

/// Refusal 13, of the first faulty field.
pub fn well_formed(
    caller: &Caller,
    request: Option<&Name>,
    command: &Command,
) -> Result<(), DeskStop>
    ensures answer { Passes (bad_text caller.now (option_copied request.entry) command.now) result }
    ensures no_fault { is_fault result ≡ false }
{
    caller_formed(caller)?;
    request_formed(request)?;
    fields_formed(command)
}

fn caller_formed(caller: &Caller) -> Result<(), DeskStop>
    ensures answer { Passes (bad_caller caller.now) result }
    ensures no_fault { is_fault result ≡ false }
{
    match caller {
        Caller::Console => Ok(()),
        Caller::Member(name) => formed(Field::Caller, is_name(name)),
    }
}

fn request_formed(request: Option<&Name>) -> Result<(), DeskStop>
    ensures answer { Passes (bad_choice Field.Request (option_copied request.entry)) result }
    ensures no_fault { is_fault result ≡ false }
{
    match request {
        Some(id) => formed(Field::Request, is_name(id)),
        None => Ok(()),
    }
}

fn permit_formed(permit: &Option<Name>) -> Result<(), DeskStop>
    ensures answer { Passes (bad_choice Field.Permit permit.now) result }
    ensures no_fault { is_fault result ≡ false }
{
    match permit {
        Some(name) => formed(Field::Permit, is_name(name)),
        None => Ok(()),
    }
}

fn fields_formed(command: &Command) -> Result<(), DeskStop>
    ensures answer { Passes (first_refusal (bad_fields command.now)) result }
    ensures no_fault { is_fault result ≡ false }
{
    match command {
        Command::MakeProject { name, members } => {
            formed(Field::Name, is_name(name))?;
            formed(Field::Members, are_members(members))?;
            Ok(())
        }
        Command::Raise {
            project,
            guideline: _,
            function,
            object,
            reason,
            permit,
        } => {
            formed(Field::Project, is_name(project))?;
            formed(Field::Function, is_word(function))?;
            formed(Field::Object, is_word(object))?;
            formed(Field::Reason, is_reason(reason))?;
            permit_formed(permit)?;
            Ok(())
        }
        Command::AddPermit {
            name,
            guideline: _,
            reason,
        } => {
            formed(Field::Name, is_name(name))?;
            formed(Field::Reason, is_reason(reason))?;
            Ok(())
        }
        Command::ApplyPlan { project, entries } => {
            formed(Field::Project, is_name(project))?;
            formed(Field::Entries, are_single(entries.items()))?;
            Ok(())
        }
        Command::Submit { project, .. } => project_formed(project),
        Command::Approve { project, .. } => project_formed(project),
        Command::Reject { project, .. } => project_formed(project),
        Command::Withdraw { project, .. } => project_formed(project),
        Command::ReadFindings { project } => project_formed(project),
        Command::Recategorise { project, .. } => project_formed(project),
        Command::ReadSummary { project } => project_formed(project),
        Command::ReadClaim { project } => project_formed(project),
    }
}

fn project_formed(project: &Name) -> Result<(), DeskStop>
    ensures answer { Passes (first_refusal (forms.bad_project project.now ∷ [])) result }
    ensures no_fault { is_fault result ≡ false }
{
    formed(Field::Project, is_name(project))?;
    Ok(())
}

fn formed(field: Field, formed: bool) -> Result<(), DeskStop>
    ensures answer { Passes (unless_formed field formed) result }
    ensures no_fault { is_fault result ≡ false }
{
    if formed {
        Ok(())
    } else {
        Err(DeskStop::BadText(field))
    }
}

/// Letters, digits, `_`, `-` and `.`, 1 to 64 of them.
fn is_name(name: &Name) -> bool
    ensures { result ≡ forms.is_name name.now }
{
    let bytes = name.bytes();
    1 <= bytes.len() && bytes.len() <= 64 && are_name_bytes(bytes)
}

fn are_name_bytes(bytes: &[u8]) -> bool
    ensures { result ≡ list_all forms.is_name_byte bytes.now }
{
    bytes.iter().all(|b| is_name_byte(*b))
}

fn is_name_byte(b: u8) -> bool
    ensures { result ≡ forms.is_name_byte b }
{
    b.is_ascii_alphanumeric() || b == b'_' || b == b'-' || b == b'.'
}

/// Printable characters without a space, 1 to 256 of them.
fn is_word(word: &Name) -> bool
    ensures { result ≡ forms.is_word word.now }
{
    let bytes = word.bytes();
    1 <= bytes.len() && bytes.len() <= 256 && are_graphic(bytes)
}

fn are_graphic(bytes: &[u8]) -> bool
    ensures { result ≡ list_all is_ascii_graphic bytes.now }
{
    bytes.iter().all(|b| b.is_ascii_graphic())
}

/// Printable characters, 1 to 1,000 of them.
fn is_reason(reason: &Name) -> bool
    ensures { result ≡ forms.is_reason reason.now }
{
    let bytes = reason.bytes();
    1 <= bytes.len() && bytes.len() <= 1_000 && are_printable(bytes)
}

fn are_printable(bytes: &[u8]) -> bool
    ensures { result ≡ list_all forms.is_printable bytes.now }
{
    bytes.iter().all(|b| is_printable(*b))
}

fn is_printable(b: u8) -> bool
    ensures { result ≡ forms.is_printable b }
{
    b == b' ' || b.is_ascii_graphic()
}

/// Different names, 1 to 32 of them.
fn are_members(members: &NameList) -> bool
    ensures { result ≡ forms.are_members members.now }
{
    let names = members.items();
    1 <= names.len() && names.len() <= 32 && are_names(names) && are_different(names)
}

fn are_names(names: &[Name]) -> bool
    ensures { result ≡ list_all forms.is_name names.now }
{
    names.iter().all(|name| is_name(name))
}

fn are_different(names: &[Name]) -> bool
    ensures { result ≡ forms.are_different names.now }
{
    for i in 0..names.len() {
        if contains(&names[i + 1..], &names[i]) {
            return false;
        }
    }
    true
}
