//! The entries of a plan.
ghost use Rattle.std.specs.Prelude.{◌≡◌, IfOk, true, false, fold, map, [], ◌∷◌};
ghost use Rattle.std.specs.List.{list_any};
ghost use Rattle.misra_base.specs.Guidelines.{all_guidelines, same_guideline};
ghost use Rattle.desk_core.specs.Answering.{Decides, Passes, is_fault, is_keepable_decision};
ghost use Rattle.desk_core.specs.Planning.{planned_by, planned_row};
ghost use Rattle.desk_core.specs.Entries as specs_of;
ghost use Rattle.desk_core.specs.Entries.{entries_refused, entry_refused, same_entries, same_entry, with_all_entries};
ghost use Rattle.desk_core.specs.Refusals.{approved_against, first_refusal, lowered};

use crate::checks::{none_approved, not_lowered};
use crate::decision::Decision;
use crate::stop::DeskStop;
use compliance_core::with_category;
use desk_tables::{Reply, Write};
use misra_base::{Category, Deviation, EntryList, Guideline, Name, Plan};
use std::alloc::AllocError;

/// What the entries come to in a project of this plan and with these deviations.
pub fn planned(
    project: &Name,
    plan: &Plan,
    entries: &EntryList,
    deviations: &[Deviation],
) -> Result<Decision, DeskStop>
    ensures answer { Decides (planned_row project.now plan.now entries.now deviations.now) result }
    ensures no_fault { is_fault result ≡ false }
    ensures keepable { IfOk result (λ d. is_keepable_decision d ≡ true) }
{
    match all_allowed(entries.items(), deviations) {
        Ok(()) => Ok(planning(project, plan, entries)?),
        Err(stop) => Err(stop),
    }
}

fn planning(project: &Name, plan: &Plan, entries: &EntryList) -> Result<Decision, AllocError>
    ensures { IfOk result (λ d. d ≡ planned_by project.now plan.now entries.now) }
{
    let plan = with_all(plan, entries.items());
    Ok(Decision {
        effect: Some(Write::SetPlan(project.clone()?, plan)),
        reply: Reply::Done,
    })
}

/// Refusals 9 and 10 of the entries, guideline by guideline.
fn all_allowed(entries: &[(Guideline, Category)], deviations: &[Deviation]) -> Result<(), DeskStop>
    ensures answer { Passes (first_refusal (entries_refused entries.now deviations.now)) result }
    ensures no_fault { is_fault result ≡ false }
{
    entries_allowed(&in_order(), entries, deviations)
}

/// Refusals 9 and 10 of the entries of these guidelines, in this order.
fn entries_allowed(
    guidelines: &[Guideline],
    entries: &[(Guideline, Category)],
    deviations: &[Deviation],
) -> Result<(), DeskStop>
    ensures answer { Passes (first_refusal (map (entry_refused entries.now deviations.now) guidelines.now)) result }
    ensures no_fault { is_fault result ≡ false }
{
    for guideline in guidelines {
        match entry_allowed(*guideline, entries, deviations) {
            Ok(()) => {}
            Err(stop) => return Err(stop),
        }
    }
    Ok(())
}

fn entry_allowed(
    guideline: Guideline,
    entries: &[(Guideline, Category)],
    deviations: &[Deviation],
) -> Result<(), DeskStop>
    ensures answer { Passes (entry_refused entries.now deviations.now guideline) result }
    ensures no_fault { is_fault result ≡ false }
{
    match category_in(entries, guideline) {
        Some(category) => category_allowed(guideline, category, deviations),
        None => Ok(()),
    }
}

fn category_allowed(
    guideline: Guideline,
    category: Category,
    deviations: &[Deviation],
) -> Result<(), DeskStop>
    ensures answer { Passes (first_refusal (lowered guideline category ∷ approved_against guideline category deviations.now ∷ [])) result }
    ensures no_fault { is_fault result ≡ false }
{
    not_lowered(guideline, category)?;
    none_approved(guideline, category, deviations)?;
    Ok(())
}

/// The category that an entry gives the guideline.
fn category_in(entries: &[(Guideline, Category)], guideline: Guideline) -> Option<Category>
    ensures { result ≡ specs_of.category_in guideline entries.now }
{
    entries
        .iter()
        .find(|entry| entry.0 == guideline)
        .map(|entry| entry.1)
}

/// The plan with all entries.
fn with_all(plan: &Plan, entries: &[(Guideline, Category)]) -> Plan
    ensures { result ≡ with_all_entries entries.now plan.now }
{
    with_entries(plan, &in_order(), entries)
}

/// The plan with the entries of these guidelines.
fn with_entries(plan: &Plan, guidelines: &[Guideline], entries: &[(Guideline, Category)]) -> Plan
    ensures { result ≡ fold (specs_of.with_entry entries.now) plan.now guidelines.now }
{
    let mut changed = *plan;
    for guideline in guidelines {
        changed = with_entry(&changed, *guideline, entries);
    }
    changed
}

fn with_entry(plan: &Plan, guideline: Guideline, entries: &[(Guideline, Category)]) -> Plan
    ensures { result ≡ specs_of.with_entry entries.now plan.now guideline }
{
    match category_in(entries, guideline) {
        Some(category) => with_category(plan, guideline, category),
        None => *plan,
    }
}

/// Whether no guideline has two entries.
pub fn are_single(entries: &[(Guideline, Category)]) -> bool
    ensures { result ≡ specs_of.are_single entries.now }
{
    for i in 0..entries.len() {
        if has_entry(&entries[i + 1..], entries[i].0) {
            return false;
        }
    }
    true
}

fn has_entry(entries: &[(Guideline, Category)], guideline: Guideline) -> bool
    ensures { result ≡ list_any (λ other. same_guideline other.0 guideline) entries.now }
{
    entries.iter().any(|entry| entry.0 == guideline)
}

/// Whether the entries are the same in the same order.
pub fn are_same(a: &[(Guideline, Category)], b: &[(Guideline, Category)]) -> bool
    ensures { result ≡ same_entries a.now b.now }
{
    if a.len() != b.len() {
        return false;
    }
    for i in 0..a.len() {
        if !is_same(&a[i], &b[i]) {
            return false;
        }
    }
    true
}

fn is_same(a: &(Guideline, Category), b: &(Guideline, Category)) -> bool
    ensures { result ≡ same_entry a.now b.now }
{
    a.0 == b.0 && a.1 == b.1
}

/// The nineteen guidelines in their order.
fn in_order() -> [Guideline; 19]
    ensures { result ≡ all_guidelines }
{
    [
        Guideline::D5_1,
        Guideline::D5_2,
        Guideline::D5_3,
        Guideline::R15_4,
        Guideline::R15_5,
        Guideline::R17_7,
        Guideline::R17_8,
        Guideline::R21_25,
        Guideline::R21_26,
        Guideline::R22_11,
        Guideline::R22_12,
        Guideline::R22_13,
        Guideline::R22_14,
        Guideline::R22_15,
        Guideline::R22_16,
        Guideline::R22_17,
        Guideline::R22_18,
        Guideline::R22_19,
        Guideline::R22_20,
    ]
}
