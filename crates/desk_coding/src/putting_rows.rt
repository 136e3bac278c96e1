//! The codings of kept rows and changes, at the end of what was written.
ghost use Rattle.std.specs.Prelude.{◌≡◌, ◌++◌, ◌∷◌, true, OnOk};
ghost use Rattle.desk_tables.specs.Keepable.{is_keepable, keeps_rightly};
ghost use Rattle.desk_coding.specs.Rows as rows;

use crate::putting::{
    put_deviation, put_findings, put_names, put_optional_text, put_permit, put_plan, put_text,
    put_u32, put_u64,
};
use crate::putting_commands::put_command;
use desk_tables::{Change, KeptRow, ProjectRow, Reply, Write};
use misra_base::{Deviation, FindingList, Name, Plan};
use std::alloc::AllocError;

/// A reply that can be kept.
#[tactic(auto, unfolding(crate::specs::Rows::reply))]
fn put_reply(out: &mut Vec<u8>, reply: &Reply) -> Result<(), AllocError>
    requires { is_keepable reply.now ≡ true }
    ensures written { OnOk result (out.new.items ≡ out.old.items ++ rows.reply.written reply.now) }
    ensures fits { OnOk result (rows.reply.fits reply.now ≡ true) }
{
    match reply {
        Reply::Made(name) => {
            out.push(0)?;
            put_text(out, name)
        }
        Reply::Revision { number, findings } => put_revision(out, *number, *findings),
        Reply::Raised(id) => {
            out.push(2)?;
            put_u32(out, *id)
        }
        Reply::Done => Ok(out.push(3)?),
        Reply::Summary { .. } | Reply::Findings { .. } | Reply::Claim { .. } => Ok(()),
    }
}

#[tactic(auto, unfolding(crate::specs::Rows::revision))]
fn put_revision(out: &mut Vec<u8>, number: u32, findings: u64) -> Result<(), AllocError>
    ensures written { OnOk result (out.new.items ≡ out.old.items ++ 1 ∷ rows.revision.written (number, findings)) }
    ensures fits { OnOk result (rows.revision.fits (number, findings) ≡ true) }
{
    out.push(1)?;
    put_u32(out, number)?;
    put_u64(out, findings)
}

#[tactic(auto, unfolding(crate::specs::Rows::kept))]
pub fn put_row(out: &mut Vec<u8>, row: &KeptRow) -> Result<(), AllocError>
    requires { is_keepable row.now.reply ≡ true }
    ensures written { OnOk result (out.new.items ≡ out.old.items ++ rows.kept.written row.now) }
    ensures fits { OnOk result (rows.kept.fits row.now ≡ true) }
{
    put_text(out, &row.caller)?;
    put_text(out, &row.request)?;
    put_command(out, &row.command)?;
    put_reply(out, &row.reply)
}

#[tactic(auto, unfolding(crate::specs::Rows::optional_kept))]
fn put_optional_row(out: &mut Vec<u8>, row: &Option<KeptRow>) -> Result<(), AllocError>
    requires { keeps_rightly row.now ≡ true }
    ensures written { OnOk result (out.new.items ≡ out.old.items ++ rows.optional_kept.written row.now) }
    ensures fits { OnOk result (rows.optional_kept.fits row.now ≡ true) }
{
    match row {
        None => Ok(out.push(0)?),
        Some(row) => {
            out.push(1)?;
            put_row(out, row)
        }
    }
}

#[tactic(auto, unfolding(crate::specs::Rows::project))]
fn put_project(out: &mut Vec<u8>, row: &ProjectRow) -> Result<(), AllocError>
    ensures written { OnOk result (out.new.items ≡ out.old.items ++ rows.project.written row.now) }
    ensures fits { OnOk result (rows.project.fits row.now ≡ true) }
{
    put_text(out, &row.name)?;
    put_optional_text(out, &row.maker)?;
    put_names(out, &row.members)?;
    put_plan(out, &row.plan)?;
    put_u32(out, row.revision)
}

#[tactic(auto, unfolding(crate::specs::Rows::write))]
fn put_write(out: &mut Vec<u8>, write: &Write) -> Result<(), AllocError>
    ensures written { OnOk result (out.new.items ≡ out.old.items ++ rows.write.written write.now) }
    ensures fits { OnOk result (rows.write.fits write.now ≡ true) }
{
    match write {
        Write::NewProject(row) => {
            out.push(0)?;
            put_project(out, row)
        }
        Write::NewRevision(project, number, found) => put_revising(out, project, *number, found),
        Write::NewDeviation(project, deviation) => put_deviating(out, 2, project, deviation),
        Write::SetDeviation(project, deviation) => put_deviating(out, 3, project, deviation),
        Write::NewPermit(permit) => {
            out.push(4)?;
            put_permit(out, permit)
        }
        Write::SetPlan(project, plan) => put_replanning(out, project, plan),
    }
}

#[tactic(auto, unfolding(crate::specs::Rows::revising))]
fn put_revising(
    out: &mut Vec<u8>,
    project: &Name,
    number: u32,
    found: &FindingList,
) -> Result<(), AllocError>
    ensures written { OnOk result (out.new.items ≡ out.old.items ++ 1 ∷ rows.revising.written (project.now, (number, found.now))) }
    ensures fits { OnOk result (rows.revising.fits (project.now, (number, found.now)) ≡ true) }
{
    out.push(1)?;
    put_text(out, project)?;
    put_u32(out, number)?;
    put_findings(out, found)
}

#[tactic(auto, unfolding(crate::specs::Rows::deviating))]
fn put_deviating(
    out: &mut Vec<u8>,
    variant: u8,
    project: &Name,
    deviation: &Deviation,
) -> Result<(), AllocError>
    ensures written { OnOk result (out.new.items ≡ out.old.items ++ variant ∷ rows.deviating.written (project.now, deviation.now)) }
    ensures fits { OnOk result (rows.deviating.fits (project.now, deviation.now) ≡ true) }
{
    out.push(variant)?;
    put_text(out, project)?;
    put_deviation(out, deviation)
}

#[tactic(auto, unfolding(crate::specs::Rows::replanning))]
fn put_replanning(out: &mut Vec<u8>, project: &Name, plan: &Plan) -> Result<(), AllocError>
    ensures written { OnOk result (out.new.items ≡ out.old.items ++ 5 ∷ rows.replanning.written (project.now, plan.now)) }
    ensures fits { OnOk result (rows.replanning.fits (project.now, plan.now) ≡ true) }
{
    out.push(5)?;
    put_text(out, project)?;
    put_plan(out, plan)
}

#[tactic(auto, unfolding(crate::specs::Rows::change))]
pub fn put_all(out: &mut Vec<u8>, change: &Change) -> Result<(), AllocError>
    requires { keeps_rightly change.now.kept ≡ true }
    ensures written { OnOk result (out.new.items ≡ out.old.items ++ rows.change.written change.now) }
    ensures fits { OnOk result (rows.change.fits change.now ≡ true) }
{
    put_write(out, &change.write)?;
    put_optional_row(out, &change.kept)
}
