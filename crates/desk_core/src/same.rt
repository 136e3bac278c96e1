//! Whether two commands are the same.
ghost use Rattle.std.specs.Prelude.{◌≡◌};
ghost use Rattle.desk_core.specs.Same as same;
ghost use Rattle.desk_core.specs.Same.{same_command};

use crate::entries::are_same;
use desk_tables::Command;
use misra_base::{Category, EntryList, Guideline, Name, NameList};

/// Whether the commands are the same. Two submissions are where project and length agree.
pub fn is_same(a: &Command, b: &Command) -> bool
    ensures { result ≡ same_command a.now b.now }
{
    match a {
        Command::MakeProject { name, members } => is_make_project(name, members, b),
        Command::Submit { project, length } => is_submit(project, *length, b),
        Command::Raise {
            project,
            guideline,
            function,
            object,
            reason,
            permit,
        } => is_raise(project, *guideline, function, object, reason, permit, b),
        Command::Approve { project, deviation } => is_approve(project, *deviation, b),
        Command::Reject { project, deviation } => is_reject(project, *deviation, b),
        Command::Withdraw { project, deviation } => is_withdraw(project, *deviation, b),
        Command::AddPermit {
            name,
            guideline,
            reason,
        } => is_add_permit(name, *guideline, reason, b),
        Command::Recategorise {
            project,
            guideline,
            category,
        } => is_recategorise(project, *guideline, *category, b),
        Command::ApplyPlan { project, entries } => is_apply_plan(project, entries, b),
        Command::ReadSummary { project } => is_read_summary(project, b),
        Command::ReadFindings { project } => is_read_findings(project, b),
        Command::ReadClaim { project } => is_read_claim(project, b),
    }
}

fn is_make_project(name: &Name, members: &NameList, b: &Command) -> bool
    ensures { result ≡ same.is_make_project name.now members.now b.now }
{
    match b {
        Command::MakeProject {
            name: n,
            members: ms,
        } => name == n && members == ms,
        _ => false,
    }
}

fn is_submit(project: &Name, length: u32, b: &Command) -> bool
    ensures { result ≡ same.is_submit project.now length b.now }
{
    match b {
        Command::Submit {
            project: p,
            length: l,
        } => project == p && length == *l,
        _ => false,
    }
}

fn is_raise(
    project: &Name,
    guideline: Guideline,
    function: &Name,
    object: &Name,
    reason: &Name,
    permit: &Option<Name>,
    b: &Command,
) -> bool
    ensures { result ≡ same.is_raise project.now guideline function.now object.now reason.now permit.now b.now }
{
    match b {
        Command::Raise {
            project: p,
            guideline: g,
            function: f,
            object: o,
            reason: r,
            permit: c,
        } => project == p
            && guideline == *g
            && function == f
            && object == o
            && reason == r
            && permit == c,
        _ => false,
    }
}

fn is_approve(project: &Name, deviation: u32, b: &Command) -> bool
    ensures { result ≡ same.is_approve project.now deviation b.now }
{
    match b {
        Command::Approve {
            project: p,
            deviation: d,
        } => project == p && deviation == *d,
        _ => false,
    }
}

fn is_reject(project: &Name, deviation: u32, b: &Command) -> bool
    ensures { result ≡ same.is_reject project.now deviation b.now }
{
    match b {
        Command::Reject {
            project: p,
            deviation: d,
        } => project == p && deviation == *d,
        _ => false,
    }
}

fn is_withdraw(project: &Name, deviation: u32, b: &Command) -> bool
    ensures { result ≡ same.is_withdraw project.now deviation b.now }
{
    match b {
        Command::Withdraw {
            project: p,
            deviation: d,
        } => project == p && deviation == *d,
        _ => false,
    }
}

fn is_add_permit(name: &Name, guideline: Guideline, reason: &Name, b: &Command) -> bool
    ensures { result ≡ same.is_add_permit name.now guideline reason.now b.now }
{
    match b {
        Command::AddPermit {
            name: n,
            guideline: g,
            reason: r,
        } => name == n && guideline == *g && reason == r,
        _ => false,
    }
}

fn is_recategorise(project: &Name, guideline: Guideline, category: Category, b: &Command) -> bool
    ensures { result ≡ same.is_recategorise project.now guideline category b.now }
{
    match b {
        Command::Recategorise {
            project: p,
            guideline: g,
            category: c,
        } => project == p && guideline == *g && category == *c,
        _ => false,
    }
}

fn is_apply_plan(project: &Name, entries: &EntryList, b: &Command) -> bool
    ensures { result ≡ same.is_apply_plan project.now entries.now b.now }
{
    match b {
        Command::ApplyPlan {
            project: p,
            entries: es,
        } => project == p && are_same(entries.items(), es.items()),
        _ => false,
    }
}

fn is_read_summary(project: &Name, b: &Command) -> bool
    ensures { result ≡ same.is_read_summary project.now b.now }
{
    match b {
        Command::ReadSummary { project: p } => project == p,
        _ => false,
    }
}

fn is_read_findings(project: &Name, b: &Command) -> bool
    ensures { result ≡ same.is_read_findings project.now b.now }
{
    match b {
        Command::ReadFindings { project: p } => project == p,
        _ => false,
    }
}

fn is_read_claim(project: &Name, b: &Command) -> bool
    ensures { result ≡ same.is_read_claim project.now b.now }
{
    match b {
        Command::ReadClaim { project: p } => project == p,
        _ => false,
    }
}
