//! What stands in front of bytes: commands.
ghost use Rattle.desk_tables.specs.declared.command.Command.TheVariants as variants;
ghost use Rattle.desk_coding.specs.Codings.{text};
ghost use Rattle.desk_coding.specs.Commands as commands;
ghost use Rattle.desk_coding.specs.Taking.{Gives};

use crate::stop::TakeStop;
use crate::taking::{
    take_category, take_entries, take_guideline, take_names, take_optional_text, take_text,
    take_u32,
};
use desk_tables::Command;
use misra_base::Name;
use std::alloc::Global;

/// The number of the variant, and its fields.
#[tactic(auto, unfolding(crate::specs::Commands::command))]
pub fn take_command(alloc: Global, bytes: &[u8]) -> Result<(Command, &[u8]), TakeStop>
    ensures { Gives (λ x. (x.0, x.1.now)) result (commands.command.front bytes.now) }
{
    match bytes {
        [] => Err(TakeStop::NoCoding),
        [number, rest @ ..] => take_variant(alloc, *number, rest),
    }
}

fn take_variant(alloc: Global, number: u8, bytes: &[u8]) -> Result<(Command, &[u8]), TakeStop>
    ensures { Gives (λ x. (x.0, x.1.now)) result (commands.command_by number bytes.now) }
{
    match number {
        0 => take_making(alloc, bytes),
        1 => take_submission(alloc, bytes),
        2 => take_raising(alloc, bytes),
        3 => take_approval(alloc, bytes),
        4 => take_rejection(alloc, bytes),
        5 => take_withdrawal(alloc, bytes),
        6 => take_permitting(alloc, bytes),
        7 => take_recategorising(alloc, bytes),
        8 => take_planning(alloc, bytes),
        9 => take_summary(alloc, bytes),
        10 => take_findings(alloc, bytes),
        11 => take_claim(alloc, bytes),
        _ => Err(TakeStop::NoCoding),
    }
}

#[tactic(auto, unfolding(crate::specs::Commands::making))]
fn take_making(alloc: Global, bytes: &[u8]) -> Result<(Command, &[u8]), TakeStop>
    ensures { Gives (λ x. (x.0, x.1.now)) result (commands.made commands.making (λ p. variants.MakeProject p.0 p.1) bytes.now) }
{
    let (name, rest) = take_text(alloc, bytes)?;
    let (members, rest) = take_names(alloc, rest)?;
    Ok((Command::MakeProject { name, members }, rest))
}

/// A project and a number: a length, or the id of a deviation.
#[tactic(auto, unfolding(crate::specs::Commands::numbered))]
fn take_numbered(alloc: Global, bytes: &[u8]) -> Result<((Name, u32), &[u8]), TakeStop>
    ensures { Gives (λ x. (x.0, x.1.now)) result (commands.numbered.front bytes.now) }
{
    let (project, rest) = take_text(alloc, bytes)?;
    let (number, rest) = take_u32(rest)?;
    Ok(((project, number), rest))
}

fn take_submission(alloc: Global, bytes: &[u8]) -> Result<(Command, &[u8]), TakeStop>
    ensures { Gives (λ x. (x.0, x.1.now)) result (commands.made commands.numbered (λ p. variants.Submit p.0 p.1) bytes.now) }
{
    let ((project, length), rest) = take_numbered(alloc, bytes)?;
    Ok((Command::Submit { project, length }, rest))
}

fn take_approval(alloc: Global, bytes: &[u8]) -> Result<(Command, &[u8]), TakeStop>
    ensures { Gives (λ x. (x.0, x.1.now)) result (commands.made commands.numbered (λ p. variants.Approve p.0 p.1) bytes.now) }
{
    let ((project, deviation), rest) = take_numbered(alloc, bytes)?;
    Ok((Command::Approve { project, deviation }, rest))
}

fn take_rejection(alloc: Global, bytes: &[u8]) -> Result<(Command, &[u8]), TakeStop>
    ensures { Gives (λ x. (x.0, x.1.now)) result (commands.made commands.numbered (λ p. variants.Reject p.0 p.1) bytes.now) }
{
    let ((project, deviation), rest) = take_numbered(alloc, bytes)?;
    Ok((Command::Reject { project, deviation }, rest))
}

fn take_withdrawal(alloc: Global, bytes: &[u8]) -> Result<(Command, &[u8]), TakeStop>
    ensures { Gives (λ x. (x.0, x.1.now)) result (commands.made commands.numbered (λ p. variants.Withdraw p.0 p.1) bytes.now) }
{
    let ((project, deviation), rest) = take_numbered(alloc, bytes)?;
    Ok((Command::Withdraw { project, deviation }, rest))
}

#[tactic(auto, unfolding(crate::specs::Commands::raising))]
fn take_raising(alloc: Global, bytes: &[u8]) -> Result<(Command, &[u8]), TakeStop>
    ensures { Gives (λ x. (x.0, x.1.now)) result (commands.made commands.raising (λ p. variants.Raise p.0 p.1.0 p.1.1.0 p.1.1.1.0 p.1.1.1.1.0 p.1.1.1.1.1) bytes.now) }
{
    let (project, rest) = take_text(alloc, bytes)?;
    let (guideline, rest) = take_guideline(rest)?;
    let (function, rest) = take_text(alloc, rest)?;
    let (object, rest) = take_text(alloc, rest)?;
    let (reason, rest) = take_text(alloc, rest)?;
    let (permit, rest) = take_optional_text(alloc, rest)?;
    let command = Command::Raise {
        project,
        guideline,
        function,
        object,
        reason,
        permit,
    };
    Ok((command, rest))
}

#[tactic(auto, unfolding(crate::specs::Commands::permitting))]
fn take_permitting(alloc: Global, bytes: &[u8]) -> Result<(Command, &[u8]), TakeStop>
    ensures { Gives (λ x. (x.0, x.1.now)) result (commands.made commands.permitting (λ p. variants.AddPermit p.0 p.1.0 p.1.1) bytes.now) }
{
    let (name, rest) = take_text(alloc, bytes)?;
    let (guideline, rest) = take_guideline(rest)?;
    let (reason, rest) = take_text(alloc, rest)?;
    let command = Command::AddPermit {
        name,
        guideline,
        reason,
    };
    Ok((command, rest))
}

#[tactic(auto, unfolding(crate::specs::Commands::recategorising))]
fn take_recategorising(alloc: Global, bytes: &[u8]) -> Result<(Command, &[u8]), TakeStop>
    ensures { Gives (λ x. (x.0, x.1.now)) result (commands.made commands.recategorising (λ p. variants.Recategorise p.0 p.1.0 p.1.1) bytes.now) }
{
    let (project, rest) = take_text(alloc, bytes)?;
    let (guideline, rest) = take_guideline(rest)?;
    let (category, rest) = take_category(rest)?;
    let command = Command::Recategorise {
        project,
        guideline,
        category,
    };
    Ok((command, rest))
}

#[tactic(auto, unfolding(crate::specs::Commands::planning))]
fn take_planning(alloc: Global, bytes: &[u8]) -> Result<(Command, &[u8]), TakeStop>
    ensures { Gives (λ x. (x.0, x.1.now)) result (commands.made commands.planning (λ p. variants.ApplyPlan p.0 p.1) bytes.now) }
{
    let (project, rest) = take_text(alloc, bytes)?;
    let (entries, rest) = take_entries(alloc, rest)?;
    Ok((Command::ApplyPlan { project, entries }, rest))
}

fn take_summary(alloc: Global, bytes: &[u8]) -> Result<(Command, &[u8]), TakeStop>
    ensures { Gives (λ x. (x.0, x.1.now)) result (commands.made text variants.ReadSummary bytes.now) }
{
    let (project, rest) = take_text(alloc, bytes)?;
    Ok((Command::ReadSummary { project }, rest))
}

fn take_findings(alloc: Global, bytes: &[u8]) -> Result<(Command, &[u8]), TakeStop>
    ensures { Gives (λ x. (x.0, x.1.now)) result (commands.made text variants.ReadFindings bytes.now) }
{
    let (project, rest) = take_text(alloc, bytes)?;
    Ok((Command::ReadFindings { project }, rest))
}

fn take_claim(alloc: Global, bytes: &[u8]) -> Result<(Command, &[u8]), TakeStop>
    ensures { Gives (λ x. (x.0, x.1.now)) result (commands.made text variants.ReadClaim bytes.now) }
{
    let (project, rest) = take_text(alloc, bytes)?;
    Ok((Command::ReadClaim { project }, rest))
}
