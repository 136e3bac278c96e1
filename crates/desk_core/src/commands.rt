//! What each command comes to: one function for each, with its refusals in their order.
ghost use Rattle.std.specs.Prelude.{◌≡◌, true, false, IfOk, ◌++◌, ◌∷◌, []};
ghost use Rattle.std.specs.Option.{option_copied};
ghost use Rattle.compliance_core.specs.Levels.{claim_of, summary_of};
ghost use Rattle.desk_tables.specs.Keeping.{Told};
ghost use Rattle.desk_tables.specs.declared.reply.Reply.TheVariants as replies;
ghost use Rattle.desk_core.specs.Answering.{Counted, Decides, is_fault, is_keepable_decision};
ghost use Rattle.desk_core.specs.Covering.{found_rows as specs_found_rows};
ghost use Rattle.desk_core.specs.Callers.{name_of};
ghost use Rattle.desk_core.specs.Rows as rows;
ghost use Rattle.desk_core.specs.Rows.{approved_by, raised_by, joined as members_of, members_with, reported};
ghost use Rattle.desk_core.specs.View.{view_of};

use crate::caller::{Caller, contains};
use crate::checks::{
    admitted, below, cited, deviable, deviation, existing, free_name, free_permit, none_approved,
    not_lowered, open, other_person, permitted, raised, room_for_permit, room_for_project,
    room_to_keep, submitted,
};
use crate::covering::found_rows;
use crate::decision::Decision;
use crate::entries::planned;
use crate::pattern::form_of;
use crate::stop::DeskStop;
use compliance_core::{claim, misra_plan, summary, with_category};
use desk_tables::{Keeper, ProjectRow, Reply, Write};
use misra_base::{
    Category, Deviation, EntryList, Finding, FindingList, Guideline, Name, NameList, Permit, Plan,
    Report, Status,
};
use std::alloc::{AllocError, Global};

pub fn make_project<K: Keeper>(
    alloc: Global,
    keeper: &mut K,
    caller: &Caller,
    name: &Name,
    members: &NameList,
) -> Result<Decision, DeskStop>
    ensures told { Told (K.tables keeper.old) (λ t. Decides (rows.make_project (view_of (name_of caller.now) name.now t) caller.now name.now members.now) result) }
    ensures tables { K.tables keeper.new ≡ K.tables keeper.old }
    ensures counted { Counted result (K.faults keeper.old) (K.faults keeper.new) }
    ensures keepable { IfOk result (λ d. is_keepable_decision d ≡ true) }
{
    free_name(alloc, keeper, name)?;
    room_for_project(alloc, keeper, caller)?;
    let project = ProjectRow {
        name: name.clone()?,
        maker: caller.as_maker()?,
        members: joined(alloc, caller, members)?,
        plan: misra_plan(),
        revision: 0,
    };
    Ok(Decision {
        effect: Some(Write::NewProject(project)),
        reply: Reply::Made(name.clone()?),
    })
}

/// The members with the caller among them.
fn joined(alloc: Global, caller: &Caller, members: &NameList) -> Result<NameList, AllocError>
    ensures { IfOk result (λ all. all ≡ members_of caller.now members.now) }
{
    match caller {
        Caller::Console => members.clone(),
        Caller::Member(name) => with_member(alloc, members, name),
    }
}

fn with_member(alloc: Global, members: &NameList, name: &Name) -> Result<NameList, AllocError>
    ensures { IfOk result (λ all. all ≡ members_with name.now members.now) }
{
    if contains(members.items(), name) {
        Ok(members.clone()?)
    } else {
        with_name(alloc, members.items(), name)
    }
}

fn with_name(alloc: Global, names: &[Name], name: &Name) -> Result<NameList, AllocError>
    ensures { IfOk result (λ all. all ≡ names.now ++ name.now ∷ []) }
{
    let mut all = Vec::from_clones(alloc, names)?;
    all.push(name.clone()?)?;
    Ok(NameList::from_vec(all))
}

pub fn submit<K: Keeper>(
    alloc: Global,
    keeper: &mut K,
    caller: &Caller,
    project: &Name,
    report: Option<&Report>,
) -> Result<Decision, DeskStop>
    ensures told { Told (K.tables keeper.old) (λ t. Decides (rows.submit (view_of (name_of caller.now) project.now t) caller.now project.now (reported (option_copied report.entry))) result) }
    ensures tables { K.tables keeper.new ≡ K.tables keeper.old }
    ensures counted { Counted result (K.faults keeper.old) (K.faults keeper.new) }
    ensures keepable { IfOk result (λ d. is_keepable_decision d ≡ true) }
{
    let row = existing(alloc, keeper, project)?;
    admitted(caller, &row)?;
    below(1_000_000, u64::from(row.revision))?;
    room_to_keep(alloc, keeper, caller)?;
    let found = found_in(alloc, report)?;
    let number = row.revision + 1;
    let findings = found.items().len() as u64;
    Ok(Decision {
        effect: Some(Write::NewRevision(project.clone()?, number, found)),
        reply: Reply::Revision { number, findings },
    })
}

fn found_in(alloc: Global, report: Option<&Report>) -> Result<FindingList, AllocError>
    ensures { IfOk result (λ found. found ≡ reported (option_copied report.entry)) }
{
    match report {
        Some(report) => report.found.clone(),
        None => Ok(FindingList::from_vec(Vec::new(alloc))),
    }
}

pub fn raise<K: Keeper>(
    alloc: Global,
    keeper: &mut K,
    caller: &Caller,
    project: &Name,
    guideline: Guideline,
    function: &Name,
    object: &Name,
    reason: &Name,
    permit: &Option<Name>,
) -> Result<Decision, DeskStop>
    ensures told { Told (K.tables keeper.old) (λ t. Decides (rows.raise (view_of (name_of caller.now) project.now t) caller.now project.now guideline function.now object.now reason.now permit.now) result) }
    ensures tables { K.tables keeper.new ≡ K.tables keeper.old }
    ensures counted { Counted result (K.faults keeper.old) (K.faults keeper.new) }
    ensures keepable { IfOk result (λ d. is_keepable_decision d ≡ true) }
{
    let row = existing(alloc, keeper, project)?;
    admitted(caller, &row)?;
    let found = cited(alloc, keeper, permit)?;
    deviable(&row.plan, guideline)?;
    permitted(&found, guideline)?;
    let count = keeper.deviations(alloc, project)?.items().len();
    below(10_000, count as u64)?;
    room_to_keep(alloc, keeper, caller)?;
    let id = count as u32 + 1;
    let deviation = new_deviation(
        alloc, caller, id, guideline, function, object, reason, permit,
    )?;
    Ok(Decision {
        effect: Some(Write::NewDeviation(project.clone()?, deviation)),
        reply: Reply::Raised(id),
    })
}

fn new_deviation(
    alloc: Global,
    caller: &Caller,
    id: u32,
    guideline: Guideline,
    function: &Name,
    object: &Name,
    reason: &Name,
    permit: &Option<Name>,
) -> Result<Deviation, AllocError>
    ensures { IfOk result (λ d. d ≡ raised_by caller.now id guideline function.now object.now reason.now permit.now) }
{
    Ok(Deviation {
        id,
        guideline,
        function: function.clone()?,
        object: object.clone()?,
        reason: reason.clone()?,
        raiser: Name::from_bytes(alloc, caller.name())?,
        permit: permit.clone()?,
        status: Status::Raised,
        approver: None,
        form: form_of(object),
    })
}

pub fn approve<K: Keeper>(
    alloc: Global,
    keeper: &mut K,
    caller: &Caller,
    project: &Name,
    id: u32,
) -> Result<Decision, DeskStop>
    ensures told { Told (K.tables keeper.old) (λ t. Decides (rows.approve (view_of (name_of caller.now) project.now t) caller.now project.now id) result) }
    ensures tables { K.tables keeper.new ≡ K.tables keeper.old }
    ensures counted { Counted result (K.faults keeper.old) (K.faults keeper.new) }
    ensures keepable { IfOk result (λ d. is_keepable_decision d ≡ true) }
{
    let row = existing(alloc, keeper, project)?;
    admitted(caller, &row)?;
    let deviation = deviation(alloc, keeper, project, id)?;
    raised(&deviation)?;
    other_person(alloc, caller, &deviation)?;
    deviable(&row.plan, deviation.guideline)?;
    room_to_keep(alloc, keeper, caller)?;
    Ok(Decision {
        effect: Some(Write::SetDeviation(project.clone()?, approved(alloc, caller, deviation)?)),
        reply: Reply::Done,
    })
}

/// The deviation with the caller as its approver.
fn approved(alloc: Global, caller: &Caller, deviation: Deviation) -> Result<Deviation, AllocError>
    ensures { IfOk result (λ d. d ≡ approved_by caller.now deviation) }
{
    let name = Name::from_bytes(alloc, caller.name())?;
    Ok(Deviation {
        status: Status::Approved,
        approver: Some(name),
        ..deviation
    })
}

pub fn reject<K: Keeper>(
    alloc: Global,
    keeper: &mut K,
    caller: &Caller,
    project: &Name,
    id: u32,
) -> Result<Decision, DeskStop>
    ensures told { Told (K.tables keeper.old) (λ t. Decides (rows.reject (view_of (name_of caller.now) project.now t) caller.now project.now id) result) }
    ensures tables { K.tables keeper.new ≡ K.tables keeper.old }
    ensures counted { Counted result (K.faults keeper.old) (K.faults keeper.new) }
    ensures keepable { IfOk result (λ d. is_keepable_decision d ≡ true) }
{
    let row = existing(alloc, keeper, project)?;
    admitted(caller, &row)?;
    let deviation = deviation(alloc, keeper, project, id)?;
    raised(&deviation)?;
    room_to_keep(alloc, keeper, caller)?;
    Ok(Decision {
        effect: Some(Write::SetDeviation(
            project.clone()?,
            with_status(deviation, Status::Rejected),
        )),
        reply: Reply::Done,
    })
}

pub fn withdraw<K: Keeper>(
    alloc: Global,
    keeper: &mut K,
    caller: &Caller,
    project: &Name,
    id: u32,
) -> Result<Decision, DeskStop>
    ensures told { Told (K.tables keeper.old) (λ t. Decides (rows.withdraw (view_of (name_of caller.now) project.now t) caller.now project.now id) result) }
    ensures tables { K.tables keeper.new ≡ K.tables keeper.old }
    ensures counted { Counted result (K.faults keeper.old) (K.faults keeper.new) }
    ensures keepable { IfOk result (λ d. is_keepable_decision d ≡ true) }
{
    let row = existing(alloc, keeper, project)?;
    admitted(caller, &row)?;
    let deviation = deviation(alloc, keeper, project, id)?;
    open(&deviation)?;
    room_to_keep(alloc, keeper, caller)?;
    Ok(Decision {
        effect: Some(Write::SetDeviation(
            project.clone()?,
            with_status(deviation, Status::Withdrawn),
        )),
        reply: Reply::Done,
    })
}

/// The deviation in another state.
fn with_status(deviation: Deviation, status: Status) -> Deviation
    ensures { result ≡ rows.with_status status deviation }
{
    Deviation {
        status,
        ..deviation
    }
}

pub fn add_permit<K: Keeper>(
    alloc: Global,
    keeper: &mut K,
    caller: &Caller,
    name: &Name,
    guideline: Guideline,
    reason: &Name,
) -> Result<Decision, DeskStop>
    ensures told { Told (K.tables keeper.old) (λ t. Decides (rows.add_permit (view_of (name_of caller.now) [] t) caller.now name.now guideline reason.now) result) }
    ensures tables { K.tables keeper.new ≡ K.tables keeper.old }
    ensures counted { Counted result (K.faults keeper.old) (K.faults keeper.new) }
    ensures keepable { IfOk result (λ d. is_keepable_decision d ≡ true) }
{
    free_permit(alloc, keeper, name)?;
    room_for_permit(alloc, keeper, caller)?;
    Ok(Decision {
        effect: Some(Write::NewPermit(new_permit(alloc, caller, name, guideline, reason)?)),
        reply: Reply::Made(name.clone()?),
    })
}

fn new_permit(
    alloc: Global,
    caller: &Caller,
    name: &Name,
    guideline: Guideline,
    reason: &Name,
) -> Result<Permit, AllocError>
    ensures { IfOk result (λ permit. permit ≡ rows.new_permit caller.now name.now guideline reason.now) }
{
    Ok(Permit {
        name: name.clone()?,
        guideline,
        reason: reason.clone()?,
        maker: Name::from_bytes(alloc, caller.name())?,
    })
}

pub fn recategorise<K: Keeper>(
    alloc: Global,
    keeper: &mut K,
    caller: &Caller,
    project: &Name,
    guideline: Guideline,
    category: Category,
) -> Result<Decision, DeskStop>
    ensures told { Told (K.tables keeper.old) (λ t. Decides (rows.recategorise (view_of (name_of caller.now) project.now t) caller.now project.now guideline category) result) }
    ensures tables { K.tables keeper.new ≡ K.tables keeper.old }
    ensures counted { Counted result (K.faults keeper.old) (K.faults keeper.new) }
    ensures keepable { IfOk result (λ d. is_keepable_decision d ≡ true) }
{
    let row = existing(alloc, keeper, project)?;
    admitted(caller, &row)?;
    not_lowered(guideline, category)?;
    let deviations = keeper.deviations(alloc, project)?;
    none_approved(guideline, category, deviations.items())?;
    room_to_keep(alloc, keeper, caller)?;
    Ok(Decision {
        effect: Some(Write::SetPlan(
            project.clone()?,
            with_category(&row.plan, guideline, category),
        )),
        reply: Reply::Done,
    })
}

pub fn apply_plan<K: Keeper>(
    alloc: Global,
    keeper: &mut K,
    caller: &Caller,
    project: &Name,
    entries: &EntryList,
) -> Result<Decision, DeskStop>
    ensures told { Told (K.tables keeper.old) (λ t. Decides (rows.apply_plan (view_of (name_of caller.now) project.now t) caller.now project.now entries.now) result) }
    ensures tables { K.tables keeper.new ≡ K.tables keeper.old }
    ensures counted { Counted result (K.faults keeper.old) (K.faults keeper.new) }
    ensures keepable { IfOk result (λ d. is_keepable_decision d ≡ true) }
{
    let row = existing(alloc, keeper, project)?;
    admitted(caller, &row)?;
    let deviations = keeper.deviations(alloc, project)?;
    planned(project, &row.plan, entries, deviations.items())
}

pub fn read_summary<K: Keeper>(
    alloc: Global,
    keeper: &mut K,
    caller: &Caller,
    project: &Name,
) -> Result<Decision, DeskStop>
    ensures told { Told (K.tables keeper.old) (λ t. Decides (rows.read_summary (view_of (name_of caller.now) project.now t) caller.now) result) }
    ensures tables { K.tables keeper.new ≡ K.tables keeper.old }
    ensures counted { Counted result (K.faults keeper.old) (K.faults keeper.new) }
    ensures keepable { IfOk result (λ d. is_keepable_decision d ≡ true) }
{
    let row = existing(alloc, keeper, project)?;
    admitted(caller, &row)?;
    submitted(&row)?;
    let deviations = keeper.deviations(alloc, project)?;
    let findings = keeper.findings(alloc, project)?;
    Ok(Decision {
        effect: None,
        reply: Reply::Summary {
            revision: row.revision,
            rows: summary(&row.plan, deviations.items(), findings.items()),
        },
    })
}

pub fn read_findings<K: Keeper>(
    alloc: Global,
    keeper: &mut K,
    caller: &Caller,
    project: &Name,
) -> Result<Decision, DeskStop>
    ensures told { Told (K.tables keeper.old) (λ t. Decides (rows.read_findings (view_of (name_of caller.now) project.now t) caller.now) result) }
    ensures tables { K.tables keeper.new ≡ K.tables keeper.old }
    ensures counted { Counted result (K.faults keeper.old) (K.faults keeper.new) }
    ensures keepable { IfOk result (λ d. is_keepable_decision d ≡ true) }
{
    let row = existing(alloc, keeper, project)?;
    admitted(caller, &row)?;
    submitted(&row)?;
    let deviations = keeper.deviations(alloc, project)?;
    let findings = keeper.findings(alloc, project)?;
    Ok(Decision {
        effect: None,
        reply: findings_reply(alloc, &row, deviations.items(), findings.items())?,
    })
}

fn findings_reply(
    alloc: Global,
    project: &ProjectRow,
    deviations: &[Deviation],
    findings: &[Finding],
) -> Result<Reply, AllocError>
    ensures { IfOk result (λ reply. reply ≡ replies.Findings project.now.revision (specs_found_rows project.now.plan deviations.now findings.now)) }
{
    let rows = found_rows(alloc, &project.plan, deviations, findings)?;
    Ok(Reply::Findings {
        revision: project.revision,
        rows,
    })
}

pub fn read_claim<K: Keeper>(
    alloc: Global,
    keeper: &mut K,
    caller: &Caller,
    project: &Name,
) -> Result<Decision, DeskStop>
    ensures told { Told (K.tables keeper.old) (λ t. Decides (rows.read_claim (view_of (name_of caller.now) project.now t) caller.now) result) }
    ensures tables { K.tables keeper.new ≡ K.tables keeper.old }
    ensures counted { Counted result (K.faults keeper.old) (K.faults keeper.new) }
    ensures keepable { IfOk result (λ d. is_keepable_decision d ≡ true) }
{
    let row = existing(alloc, keeper, project)?;
    admitted(caller, &row)?;
    submitted(&row)?;
    let deviations = keeper.deviations(alloc, project)?;
    let findings = keeper.findings(alloc, project)?;
    Ok(Decision {
        effect: None,
        reply: Reply::Claim {
            revision: row.revision,
            failing: failing(&row.plan, deviations.items(), findings.items()),
        },
    })
}

/// The first guideline that stands against the claim.
fn failing(plan: &Plan, deviations: &[Deviation], findings: &[Finding]) -> Option<Guideline>
    ensures { result ≡ claim_of (summary_of plan.now deviations.now findings.now) }
{
    claim(&summary(plan, deviations, findings))
}
