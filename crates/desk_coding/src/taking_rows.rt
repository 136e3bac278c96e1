//! What stands in front of bytes: kept rows and changes.
ghost use Rattle.desk_tables.specs.declared.change.Write.TheVariants as writes;
ghost use Rattle.desk_tables.specs.declared.reply.Reply.TheVariants as replies;
ghost use Rattle.desk_coding.specs.Codings.{number32, text};
ghost use Rattle.desk_coding.specs.Commands.{made};
ghost use Rattle.desk_coding.specs.Parts.{permit as permit_coding};
ghost use Rattle.desk_coding.specs.Rows as rows;
ghost use Rattle.desk_coding.specs.Taking.{Gives};

use crate::stop::TakeStop;
use crate::taking::{take_names, take_optional_text, take_text, take_u32, take_u64};
use crate::taking_commands::take_command;
use crate::taking_parts::{take_deviation, take_findings, take_permit, take_plan};
use desk_tables::{Change, KeptRow, ProjectRow, Reply, Write};
use std::alloc::Global;

/// A reply that can be kept.
#[tactic(auto, unfolding(crate::specs::Rows::reply))]
fn take_reply(alloc: Global, bytes: &[u8]) -> Result<(Reply, &[u8]), TakeStop>
    ensures { Gives (λ x. (x.0, x.1.now)) result (rows.reply.front bytes.now) }
{
    match bytes {
        [0, rest @ ..] => take_made(alloc, rest),
        [1, rest @ ..] => take_revision(rest),
        [2, rest @ ..] => take_raised(rest),
        [3, rest @ ..] => Ok((Reply::Done, rest)),
        _ => Err(TakeStop::NoCoding),
    }
}

fn take_made(alloc: Global, bytes: &[u8]) -> Result<(Reply, &[u8]), TakeStop>
    ensures { Gives (λ x. (x.0, x.1.now)) result (made text replies.Made bytes.now) }
{
    let (name, rest) = take_text(alloc, bytes)?;
    Ok((Reply::Made(name), rest))
}

#[tactic(auto, unfolding(crate::specs::Rows::revision))]
fn take_revision(bytes: &[u8]) -> Result<(Reply, &[u8]), TakeStop>
    ensures { Gives (λ x. (x.0, x.1.now)) result (made rows.revision (λ p. replies.Revision p.0 p.1) bytes.now) }
{
    let (number, rest) = take_u32(bytes)?;
    let (findings, rest) = take_u64(rest)?;
    Ok((Reply::Revision { number, findings }, rest))
}

fn take_raised(bytes: &[u8]) -> Result<(Reply, &[u8]), TakeStop>
    ensures { Gives (λ x. (x.0, x.1.now)) result (made number32 replies.Raised bytes.now) }
{
    let (id, rest) = take_u32(bytes)?;
    Ok((Reply::Raised(id), rest))
}

#[tactic(auto, unfolding(crate::specs::Rows::kept))]
pub fn take_row(alloc: Global, bytes: &[u8]) -> Result<(KeptRow, &[u8]), TakeStop>
    ensures { Gives (λ x. (x.0, x.1.now)) result (rows.kept.front bytes.now) }
{
    let (caller, rest) = take_text(alloc, bytes)?;
    let (request, rest) = take_text(alloc, rest)?;
    let (command, rest) = take_command(alloc, rest)?;
    let (reply, rest) = take_reply(alloc, rest)?;
    let row = KeptRow {
        caller,
        request,
        command,
        reply,
    };
    Ok((row, rest))
}

#[tactic(auto, unfolding(crate::specs::Rows::optional_kept))]
fn take_optional_row(alloc: Global, bytes: &[u8]) -> Result<(Option<KeptRow>, &[u8]), TakeStop>
    ensures { Gives (λ x. (x.0, x.1.now)) result (rows.optional_kept.front bytes.now) }
{
    match bytes {
        [] => Err(TakeStop::NoCoding),
        [0, rest @ ..] => Ok((None, rest)),
        [1, rest @ ..] => {
            let (row, rest) = take_row(alloc, rest)?;
            Ok((Some(row), rest))
        }
        [_, ..] => Err(TakeStop::NoCoding),
    }
}

#[tactic(auto, unfolding(crate::specs::Rows::project))]
fn take_project(alloc: Global, bytes: &[u8]) -> Result<(ProjectRow, &[u8]), TakeStop>
    ensures { Gives (λ x. (x.0, x.1.now)) result (rows.project.front bytes.now) }
{
    let (name, rest) = take_text(alloc, bytes)?;
    let (maker, rest) = take_optional_text(alloc, rest)?;
    let (members, rest) = take_names(alloc, rest)?;
    let (plan, rest) = take_plan(rest)?;
    let (revision, rest) = take_u32(rest)?;
    let row = ProjectRow {
        name,
        maker,
        members,
        plan,
        revision,
    };
    Ok((row, rest))
}

#[tactic(auto, unfolding(crate::specs::Rows::write))]
fn take_write(alloc: Global, bytes: &[u8]) -> Result<(Write, &[u8]), TakeStop>
    ensures { Gives (λ x. (x.0, x.1.now)) result (rows.write.front bytes.now) }
{
    match bytes {
        [] => Err(TakeStop::NoCoding),
        [number, rest @ ..] => take_variant(alloc, *number, rest),
    }
}

fn take_variant(alloc: Global, number: u8, bytes: &[u8]) -> Result<(Write, &[u8]), TakeStop>
    ensures { Gives (λ x. (x.0, x.1.now)) result (rows.write_by number bytes.now) }
{
    match number {
        0 => take_new_project(alloc, bytes),
        1 => take_new_revision(alloc, bytes),
        2 => take_new_deviation(alloc, bytes),
        3 => take_set_deviation(alloc, bytes),
        4 => take_new_permit(alloc, bytes),
        5 => take_set_plan(alloc, bytes),
        _ => Err(TakeStop::NoCoding),
    }
}

fn take_new_project(alloc: Global, bytes: &[u8]) -> Result<(Write, &[u8]), TakeStop>
    ensures { Gives (λ x. (x.0, x.1.now)) result (made rows.project writes.NewProject bytes.now) }
{
    let (row, rest) = take_project(alloc, bytes)?;
    Ok((Write::NewProject(row), rest))
}

#[tactic(auto, unfolding(crate::specs::Rows::revising))]
fn take_new_revision(alloc: Global, bytes: &[u8]) -> Result<(Write, &[u8]), TakeStop>
    ensures { Gives (λ x. (x.0, x.1.now)) result (made rows.revising (λ p. writes.NewRevision p.0 p.1.0 p.1.1) bytes.now) }
{
    let (project, rest) = take_text(alloc, bytes)?;
    let (number, rest) = take_u32(rest)?;
    let (found, rest) = take_findings(alloc, rest)?;
    Ok((Write::NewRevision(project, number, found), rest))
}

#[tactic(auto, unfolding(crate::specs::Rows::deviating))]
fn take_new_deviation(alloc: Global, bytes: &[u8]) -> Result<(Write, &[u8]), TakeStop>
    ensures { Gives (λ x. (x.0, x.1.now)) result (made rows.deviating (λ p. writes.NewDeviation p.0 p.1) bytes.now) }
{
    let (project, rest) = take_text(alloc, bytes)?;
    let (deviation, rest) = take_deviation(alloc, rest)?;
    Ok((Write::NewDeviation(project, deviation), rest))
}

#[tactic(auto, unfolding(crate::specs::Rows::deviating))]
fn take_set_deviation(alloc: Global, bytes: &[u8]) -> Result<(Write, &[u8]), TakeStop>
    ensures { Gives (λ x. (x.0, x.1.now)) result (made rows.deviating (λ p. writes.SetDeviation p.0 p.1) bytes.now) }
{
    let (project, rest) = take_text(alloc, bytes)?;
    let (deviation, rest) = take_deviation(alloc, rest)?;
    Ok((Write::SetDeviation(project, deviation), rest))
}

fn take_new_permit(alloc: Global, bytes: &[u8]) -> Result<(Write, &[u8]), TakeStop>
    ensures { Gives (λ x. (x.0, x.1.now)) result (made permit_coding writes.NewPermit bytes.now) }
{
    let (permit, rest) = take_permit(alloc, bytes)?;
    Ok((Write::NewPermit(permit), rest))
}

#[tactic(auto, unfolding(crate::specs::Rows::replanning))]
fn take_set_plan(alloc: Global, bytes: &[u8]) -> Result<(Write, &[u8]), TakeStop>
    ensures { Gives (λ x. (x.0, x.1.now)) result (made rows.replanning (λ p. writes.SetPlan p.0 p.1) bytes.now) }
{
    let (project, rest) = take_text(alloc, bytes)?;
    let (plan, rest) = take_plan(rest)?;
    Ok((Write::SetPlan(project, plan), rest))
}

#[tactic(auto, unfolding(crate::specs::Rows::change))]
pub fn take_all(alloc: Global, bytes: &[u8]) -> Result<(Change, &[u8]), TakeStop>
    ensures { Gives (λ x. (x.0, x.1.now)) result (rows.change.front bytes.now) }
{
    let (write, rest) = take_write(alloc, bytes)?;
    let (kept, rest) = take_optional_row(alloc, rest)?;
    Ok((Change { write, kept }, rest))
}
