//! The codings of commands, at the end of what was written.
ghost use Rattle.std.specs.Prelude.{◌≡◌, ◌++◌, ◌∷◌, true, OnOk};
ghost use Rattle.desk_coding.specs.Codings as codings;
ghost use Rattle.desk_coding.specs.Commands as commands;

use crate::putting::{
    put_category, put_entries, put_guideline, put_names, put_optional_text, put_text, put_u32,
};
use desk_tables::Command;
use misra_base::{Category, EntryList, Guideline, Name, NameList};
use std::alloc::AllocError;

/// The number of the variant, and its fields.
#[tactic(auto, unfolding(crate::specs::Commands::command))]
pub fn put_command(out: &mut Vec<u8>, command: &Command) -> Result<(), AllocError>
    ensures written { OnOk result (out.new.items ≡ out.old.items ++ commands.command.written command.now) }
    ensures fits { OnOk result (commands.command.fits command.now ≡ true) }
{
    match command {
        Command::MakeProject { name, members } => put_making(out, name, members),
        Command::Submit { project, length } => put_numbered(out, 1, project, *length),
        Command::Raise {
            project,
            guideline,
            function,
            object,
            reason,
            permit,
        } => put_raising(out, project, *guideline, function, object, reason, permit),
        Command::Approve { project, deviation } => put_numbered(out, 3, project, *deviation),
        Command::Reject { project, deviation } => put_numbered(out, 4, project, *deviation),
        Command::Withdraw { project, deviation } => put_numbered(out, 5, project, *deviation),
        Command::AddPermit {
            name,
            guideline,
            reason,
        } => put_permitting(out, name, *guideline, reason),
        Command::Recategorise {
            project,
            guideline,
            category,
        } => put_recategorising(out, project, *guideline, *category),
        Command::ApplyPlan { project, entries } => put_planning(out, project, entries),
        Command::ReadSummary { project } => put_reading(out, 9, project),
        Command::ReadFindings { project } => put_reading(out, 10, project),
        Command::ReadClaim { project } => put_reading(out, 11, project),
    }
}

#[tactic(auto, unfolding(crate::specs::Commands::making))]
fn put_making(out: &mut Vec<u8>, name: &Name, members: &NameList) -> Result<(), AllocError>
    ensures written { OnOk result (out.new.items ≡ out.old.items ++ 0 ∷ commands.making.written (name.now, members.now)) }
    ensures fits { OnOk result (commands.making.fits (name.now, members.now) ≡ true) }
{
    out.push(0)?;
    put_text(out, name)?;
    put_names(out, members)
}

#[tactic(auto, unfolding(crate::specs::Commands::numbered))]
fn put_numbered(
    out: &mut Vec<u8>,
    variant: u8,
    project: &Name,
    number: u32,
) -> Result<(), AllocError>
    ensures written { OnOk result (out.new.items ≡ out.old.items ++ variant ∷ commands.numbered.written (project.now, number)) }
    ensures fits { OnOk result (commands.numbered.fits (project.now, number) ≡ true) }
{
    out.push(variant)?;
    put_text(out, project)?;
    put_u32(out, number)
}

#[tactic(auto, unfolding(crate::specs::Commands::raising))]
fn put_raising(
    out: &mut Vec<u8>,
    project: &Name,
    guideline: Guideline,
    function: &Name,
    object: &Name,
    reason: &Name,
    permit: &Option<Name>,
) -> Result<(), AllocError>
    ensures written { OnOk result (out.new.items ≡ out.old.items ++ 2 ∷ commands.raising.written (project.now, (guideline, (function.now, (object.now, (reason.now, permit.now)))))) }
    ensures fits { OnOk result (commands.raising.fits (project.now, (guideline, (function.now, (object.now, (reason.now, permit.now))))) ≡ true) }
{
    out.push(2)?;
    put_text(out, project)?;
    put_guideline(out, guideline)?;
    put_text(out, function)?;
    put_text(out, object)?;
    put_text(out, reason)?;
    put_optional_text(out, permit)
}

#[tactic(auto, unfolding(crate::specs::Commands::permitting))]
fn put_permitting(
    out: &mut Vec<u8>,
    name: &Name,
    guideline: Guideline,
    reason: &Name,
) -> Result<(), AllocError>
    ensures written { OnOk result (out.new.items ≡ out.old.items ++ 6 ∷ commands.permitting.written (name.now, (guideline, reason.now))) }
    ensures fits { OnOk result (commands.permitting.fits (name.now, (guideline, reason.now)) ≡ true) }
{
    out.push(6)?;
    put_text(out, name)?;
    put_guideline(out, guideline)?;
    put_text(out, reason)
}

#[tactic(auto, unfolding(crate::specs::Commands::recategorising))]
fn put_recategorising(
    out: &mut Vec<u8>,
    project: &Name,
    guideline: Guideline,
    category: Category,
) -> Result<(), AllocError>
    ensures written { OnOk result (out.new.items ≡ out.old.items ++ 7 ∷ commands.recategorising.written (project.now, (guideline, category))) }
    ensures fits { OnOk result (commands.recategorising.fits (project.now, (guideline, category)) ≡ true) }
{
    out.push(7)?;
    put_text(out, project)?;
    put_guideline(out, guideline)?;
    put_category(out, category)
}

#[tactic(auto, unfolding(crate::specs::Commands::planning))]
fn put_planning(out: &mut Vec<u8>, project: &Name, entries: &EntryList) -> Result<(), AllocError>
    ensures written { OnOk result (out.new.items ≡ out.old.items ++ 8 ∷ commands.planning.written (project.now, entries.now)) }
    ensures fits { OnOk result (commands.planning.fits (project.now, entries.now) ≡ true) }
{
    out.push(8)?;
    put_text(out, project)?;
    put_entries(out, entries)
}

fn put_reading(out: &mut Vec<u8>, variant: u8, project: &Name) -> Result<(), AllocError>
    ensures written { OnOk result (out.new.items ≡ out.old.items ++ variant ∷ codings.text.written project.now) }
    ensures fits { OnOk result (codings.text.fits project.now ≡ true) }
{
    out.push(variant)?;
    put_text(out, project)
}
