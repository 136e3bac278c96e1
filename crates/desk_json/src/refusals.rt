//! What the desk refuses, as JSON.
ghost use Rattle.std.specs.Prelude.{◌≡◌, IfOk};
ghost use Rattle.serde_json.specs.View.{view};
ghost use Rattle.desk_json.specs.Refusals.{against as data_against, command_name as name_of, stop_data};

use crate::texts::text_of;
use desk_core::DeskStop;
use desk_tables::Command;
use serde_json::{Value, json};
use std::alloc::{AllocError, Global};

fn command_name(command: &Command) -> &'static str
    ensures { result.now ≡ name_of command.now }
{
    match command {
        Command::MakeProject { .. } => "MakeProject",
        Command::Submit { .. } => "Submit",
        Command::Raise { .. } => "Raise",
        Command::Approve { .. } => "Approve",
        Command::Reject { .. } => "Reject",
        Command::Withdraw { .. } => "Withdraw",
        Command::AddPermit { .. } => "AddPermit",
        Command::Recategorise { .. } => "Recategorise",
        Command::ApplyPlan { .. } => "ApplyPlan",
        Command::ReadSummary { .. } => "ReadSummary",
        Command::ReadFindings { .. } => "ReadFindings",
        Command::ReadClaim { .. } => "ReadClaim",
    }
}

/// What stands against the command.
fn against(alloc: Global, stop: &DeskStop) -> Result<Value, AllocError>
    ensures { IfOk result (λ value. view value ≡ data_against stop.now) }
{
    match stop {
        DeskStop::WrongState(status) => json!(in alloc; status.word()),
        DeskStop::SamePerson(name) => Ok(Value::String(text_of(alloc, name)?)),
        DeskStop::MandatoryNotDeviable(guideline)
        | DeskStop::PermitForOther(guideline)
        | DeskStop::Lowered(guideline) => json!(in alloc; guideline.word()),
        DeskStop::HasApprovedDeviations(count) => Ok(Value::from(*count)),
        DeskStop::RequestIdReused(command) => json!(in alloc; command_name(command)),
        DeskStop::BadText(field) => json!(in alloc; field.name()),
        DeskStop::LimitReached(most) => Ok(Value::from(*most)),
        DeskStop::NoProject
        | DeskStop::NameTaken
        | DeskStop::NoDeviation
        | DeskStop::NoPermit
        | DeskStop::NotMember
        | DeskStop::NoRevision
        | DeskStop::KeeperFault
        | DeskStop::Memory => Ok(Value::Null),
    }
}

/// The body of the reply to a command that the desk refuses.
pub fn stop_value(alloc: Global, stop: &DeskStop) -> Result<Value, AllocError>
    ensures { IfOk result (λ value. view value ≡ stop_data stop.now) }
{
    let value = against(alloc, stop)?;
    json!(in alloc; {"name": stop.name(), "refusal": stop.number(), "value": value})
}
