//! The two calls of the desk machine.
ghost use Rattle.std.specs.Prelude.{◌≡◌, IfOk, Ok, Err, Some, None, true, false};
ghost use Rattle.std.specs.Option.{option_copied, option_map_or};
ghost use Rattle.desk_tables.specs.Keepable.{is_keepable, keeps_rightly};
ghost use Rattle.desk_tables.specs.Tables.{after_change, kept_by};
ghost use Rattle.desk_tables.specs.Keeping.{Told};
ghost use Rattle.desk_core.specs.Answering.{Acts, Answers, Counted, Decides, Makes, is_fault, is_keepable_decision};
ghost use Rattle.desk_core.specs.Callers.{name_of};
ghost use Rattle.desk_core.specs.Rows.{row_for, project_of};
ghost use Rattle.desk_core.specs.Step.{desk_step, effected, repeated, row_to_keep as kept_row_of, seen_answer};
ghost use Rattle.desk_core.specs.View.{view_of};

use crate::caller::Caller;
use crate::commands;
use crate::decision::Decision;
use crate::forms::well_formed;
use crate::same::is_same;
use crate::stop::DeskStop;
use desk_tables::{Change, Command, Keeper, KeptRow, Reply};
use misra_base::{Name, Report};
use std::alloc::{AllocError, Global};

/// Whether the request was answered before. Refusal 13 comes where a field is outside its form;
/// refusal 11 where a reply is kept for the caller and the request's id, but for another command.
/// Else the answer is the kept reply, and None exactly where none is kept for that caller and id.
/// `KeeperFault` comes only where the keeper's count of faults rose, and then nothing else does.
pub fn seen<K: Keeper>(
    alloc: Global,
    keeper: &mut K,
    caller: &Caller,
    request: Option<&Name>,
    command: &Command,
) -> Result<Option<Reply>, DeskStop>
    ensures told { Told (K.tables keeper.old) (λ t. Answers (seen_answer (view_of (name_of caller.now) (project_of command.now) t) caller.now (option_copied request.entry) command.now) result) }
    ensures tables { K.tables keeper.new ≡ K.tables keeper.old }
    ensures counted { Counted result (K.faults keeper.old) (K.faults keeper.new) }
{
    well_formed(caller, request, command)?;
    match request {
        Some(request) => kept_reply(alloc, keeper, caller, request, command),
        None => Ok(None),
    }
}

#[tactic(auto, using(crate::proofs::Answered::answers_same))]
fn kept_reply<K: Keeper>(
    alloc: Global,
    keeper: &mut K,
    caller: &Caller,
    request: &Name,
    command: &Command,
) -> Result<Option<Reply>, DeskStop>
    ensures told { Told (K.tables keeper.old) (λ t. Answers (option_map_or (λ row. repeated row command.now) (kept_by (name_of caller.now) request.now t) (Ok None)) result) }
    ensures tables { K.tables keeper.new ≡ K.tables keeper.old }
    ensures counted { Counted result (K.faults keeper.old) (K.faults keeper.new) }
{
    let name = Name::from_bytes(alloc, caller.name())?;
    match keeper.kept(alloc, &name, request)? {
        Some(row) => repeat(row, command),
        None => Ok(None),
    }
}

/// The kept reply, where the command is the kept one.
fn repeat(row: KeptRow, command: &Command) -> Result<Option<Reply>, DeskStop>
    ensures answer { result ≡ repeated row command.now }
    ensures no_fault { is_fault result ≡ false }
{
    if is_same(&row.command, command) {
        Ok(Some(row.reply))
    } else {
        Err(DeskStop::RequestIdReused(row.command))
    }
}

/// Does the command, or says why it is not done. A request that comes again gets the reply that was
/// kept for it. A request's id is given exactly for a changing command of a member, and a report
/// exactly for a submission.
///
/// The keeper's tables change once at most, after all memory is taken. A refused command and want of
/// memory leave them; after `KeeperFault` they are those before the command or those after all of it.
/// `KeeperFault` comes only where the keeper's count of faults rose, and then nothing else does.
pub fn act<K: Keeper>(
    alloc: Global,
    keeper: &mut K,
    caller: &Caller,
    request: Option<&Name>,
    command: &Command,
    report: Option<&Report>,
) -> Result<Reply, DeskStop>
    ensures told { Told (K.tables keeper.old) (λ t. Acts t (desk_step t caller.now (option_copied request.entry) command.now (option_copied report.entry)) result (K.tables keeper.new)) }
    ensures counted { Counted result (K.faults keeper.old) (K.faults keeper.new) }
{
    if let Some(reply) = seen(alloc, keeper, caller, request, command)? {
        return Ok(reply);
    }
    let decision = decide(alloc, keeper, caller, command, report)?;
    settle(alloc, keeper, caller, request, command, decision)
}

/// What the command comes to. Nothing is changed yet.
fn decide<K: Keeper>(
    alloc: Global,
    keeper: &mut K,
    caller: &Caller,
    command: &Command,
    report: Option<&Report>,
) -> Result<Decision, DeskStop>
    ensures told { Told (K.tables keeper.old) (λ t. Decides (row_for (view_of (name_of caller.now) (project_of command.now) t) caller.now command.now (option_copied report.entry)) result) }
    ensures tables { K.tables keeper.new ≡ K.tables keeper.old }
    ensures counted { Counted result (K.faults keeper.old) (K.faults keeper.new) }
    ensures keepable { IfOk result (λ d. is_keepable_decision d ≡ true) }
{
    match command {
        Command::MakeProject { name, members } => {
            commands::make_project(alloc, keeper, caller, name, members)
        }
        Command::Submit { project, length: _ } => {
            commands::submit(alloc, keeper, caller, project, report)
        }
        Command::Raise {
            project,
            guideline,
            function,
            object,
            reason,
            permit,
        } => commands::raise(
            alloc, keeper, caller, project, *guideline, function, object, reason, permit,
        ),
        Command::Approve { project, deviation } => {
            commands::approve(alloc, keeper, caller, project, *deviation)
        }
        Command::Reject { project, deviation } => {
            commands::reject(alloc, keeper, caller, project, *deviation)
        }
        Command::Withdraw { project, deviation } => {
            commands::withdraw(alloc, keeper, caller, project, *deviation)
        }
        Command::AddPermit {
            name,
            guideline,
            reason,
        } => commands::add_permit(alloc, keeper, caller, name, *guideline, reason),
        Command::Recategorise {
            project,
            guideline,
            category,
        } => commands::recategorise(alloc, keeper, caller, project, *guideline, *category),
        Command::ApplyPlan { project, entries } => {
            commands::apply_plan(alloc, keeper, caller, project, entries)
        }
        Command::ReadSummary { project } => commands::read_summary(alloc, keeper, caller, project),
        Command::ReadFindings { project } => {
            commands::read_findings(alloc, keeper, caller, project)
        }
        Command::ReadClaim { project } => commands::read_claim(alloc, keeper, caller, project),
    }
}

/// Makes the change, with the reply kept beside it.
fn settle<K: Keeper>(
    alloc: Global,
    keeper: &mut K,
    caller: &Caller,
    request: Option<&Name>,
    command: &Command,
    decision: Decision,
) -> Result<Reply, DeskStop>
    requires keepable { is_keepable_decision decision ≡ true }
    ensures told { Told (K.tables keeper.old) (λ t. Acts t (Ok decision.reply, effected t caller.now (option_copied request.entry) command.now decision) result (K.tables keeper.new)) }
    ensures counted { Counted result (K.faults keeper.old) (K.faults keeper.new) }
{
    let Decision { effect, reply } = decision;
    let Some(write) = effect else {
        return Ok(reply);
    };
    let kept = row_to_keep(caller, request, command, &reply)?;
    make(alloc, keeper, Change { write, kept })?;
    Ok(reply)
}

fn make<K: Keeper>(alloc: Global, keeper: &mut K, change: Change) -> Result<(), DeskStop>
    requires kept { keeps_rightly change.kept ≡ true }
    ensures told { Told (K.tables keeper.old) (λ t. Makes t (after_change change t) result (K.tables keeper.new)) }
    ensures counted { Counted result (K.faults keeper.old) (K.faults keeper.new) }
{
    Ok(keeper.change(alloc, &change)?)
}

/// The row that is kept of an accepted command.
fn row_to_keep(
    caller: &Caller,
    request: Option<&Name>,
    command: &Command,
    reply: &Reply,
) -> Result<Option<KeptRow>, AllocError>
    requires keepable { is_keepable reply.now ≡ true }
    ensures row { IfOk result (λ row. row ≡ kept_row_of caller.now (option_copied request.entry) command.now reply.now) }
    ensures kept { IfOk result (λ row. keeps_rightly row ≡ true) }
{
    let Caller::Member(name) = caller else {
        return Ok(None);
    };
    let Some(request) = request else {
        return Ok(None);
    };
    Ok(Some(KeptRow {
        caller: name.clone()?,
        request: request.clone()?,
        command: command.clone()?,
        reply: reply.clone()?,
    }))
}
