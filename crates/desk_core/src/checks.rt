//! The refusals, one function for each. Each makes one call of the keeper at most.
ghost use Rattle.std.specs.Prelude.{◌≡◌, ◌==◌, ◌||◌, not, false, [], ◌∷◌};
ghost use Rattle.std.specs.List.{find};
ghost use Rattle.std.specs.Option.{is_some, option_copied, option_and_then};
ghost use Rattle.std.specs.Str.{bytes_eq};
ghost use Rattle.misra_base.specs.Guidelines.{same_guideline};
ghost use Rattle.compliance_core.specs.Categories.{is_allowed, is_mandatory, revised_category};
ghost use Rattle.compliance_core.specs.Covers.{is_approved};
ghost use Rattle.desk_tables.specs.Keeping.{Told};
ghost use Rattle.desk_tables.specs.Tables.{project_named, deviations_of, permit_named, counts_of};
ghost use Rattle.desk_core.specs.Answering.{Cites, Counted, Finds, Passes, is_fault};
ghost use Rattle.desk_core.specs.Callers.{is_member_of, name_of};
ghost use Rattle.desk_core.specs.Refusals.{refuse_if, is_raised, at_limit, too_many_of, approved_for, approved_against, first_refusal};
ghost use Rattle.desk_core.specs.declared.stop.DeskStop.TheVariants as stops;

use crate::caller::Caller;
use crate::stop::DeskStop;
use compliance_core::{allowed, revised};
use desk_tables::{Keeper, ProjectRow};
use misra_base::{Category, Deviation, Guideline, Name, Permit, Plan, Status};
use std::alloc::Global;

/// The project, or refusal 1.
pub fn existing<K: Keeper>(
    alloc: Global,
    keeper: &mut K,
    project: &Name,
) -> Result<ProjectRow, DeskStop>
    ensures told { Told (K.tables keeper.old) (λ t. Finds (project_named project.now t) stops.NoProject result) }
    ensures tables { K.tables keeper.new ≡ K.tables keeper.old }
    ensures counted { Counted result (K.faults keeper.old) (K.faults keeper.new) }
{
    match keeper.project(alloc, project)? {
        Some(row) => Ok(row),
        None => Err(DeskStop::NoProject),
    }
}

/// Refusal 2.
pub fn free_name<K: Keeper>(alloc: Global, keeper: &mut K, project: &Name) -> Result<(), DeskStop>
    ensures told { Told (K.tables keeper.old) (λ t. Passes (refuse_if (is_some (project_named project.now t)) stops.NameTaken) result) }
    ensures tables { K.tables keeper.new ≡ K.tables keeper.old }
    ensures counted { Counted result (K.faults keeper.old) (K.faults keeper.new) }
{
    match keeper.project(alloc, project)? {
        Some(_) => Err(DeskStop::NameTaken),
        None => Ok(()),
    }
}

/// Refusal 2, of a permit.
pub fn free_permit<K: Keeper>(alloc: Global, keeper: &mut K, name: &Name) -> Result<(), DeskStop>
    ensures told { Told (K.tables keeper.old) (λ t. Passes (refuse_if (is_some (permit_named name.now t)) stops.NameTaken) result) }
    ensures tables { K.tables keeper.new ≡ K.tables keeper.old }
    ensures counted { Counted result (K.faults keeper.old) (K.faults keeper.new) }
{
    match keeper.permit(alloc, name)? {
        Some(_) => Err(DeskStop::NameTaken),
        None => Ok(()),
    }
}

/// The deviation with this id, or refusal 3.
pub fn deviation<K: Keeper>(
    alloc: Global,
    keeper: &mut K,
    project: &Name,
    id: u32,
) -> Result<Deviation, DeskStop>
    ensures told { Told (K.tables keeper.old) (λ t. Finds (find (λ d. d.id == id) (deviations_of project.now t)) stops.NoDeviation result) }
    ensures tables { K.tables keeper.new ≡ K.tables keeper.old }
    ensures counted { Counted result (K.faults keeper.old) (K.faults keeper.new) }
{
    let deviations = keeper.deviations(alloc, project)?;
    copy_with_id(deviations.items(), id)
}

fn copy_with_id(deviations: &[Deviation], id: u32) -> Result<Deviation, DeskStop>
    ensures answer { Finds (find (λ d. d.id == id) deviations.now) stops.NoDeviation result }
    ensures no_fault { is_fault result ≡ false }
{
    match with_id(deviations, id) {
        Some(found) => Ok(found.clone()?),
        None => Err(DeskStop::NoDeviation),
    }
}

fn with_id(deviations: &[Deviation], id: u32) -> Option<&Deviation>
    ensures { option_copied result ≡ find (λ d. d.id == id) deviations.now }
{
    deviations.iter().find(|deviation| deviation.id == id)
}

/// Refusal 4.
pub fn raised(deviation: &Deviation) -> Result<(), DeskStop>
    ensures answer { Passes (refuse_if (not (is_raised deviation.now.status)) (stops.WrongState deviation.now.status)) result }
    ensures no_fault { is_fault result ≡ false }
{
    if deviation.status == Status::Raised {
        Ok(())
    } else {
        Err(DeskStop::WrongState(deviation.status))
    }
}

/// Refusal 4 of a withdrawal.
pub fn open(deviation: &Deviation) -> Result<(), DeskStop>
    ensures answer { Passes (refuse_if (not (is_raised deviation.now.status || is_approved deviation.now.status)) (stops.WrongState deviation.now.status)) result }
    ensures no_fault { is_fault result ≡ false }
{
    match deviation.status {
        Status::Raised | Status::Approved => Ok(()),
        Status::Rejected | Status::Withdrawn => Err(DeskStop::WrongState(deviation.status)),
    }
}

/// Refusal 5.
pub fn other_person(alloc: Global, caller: &Caller, deviation: &Deviation) -> Result<(), DeskStop>
    ensures answer { Passes (refuse_if (bytes_eq deviation.now.raiser (name_of caller.now)) (stops.SamePerson (name_of caller.now))) result }
    ensures no_fault { is_fault result ≡ false }
{
    if deviation.raiser.bytes() == caller.name() {
        let name = Name::from_bytes(alloc, caller.name())?;
        return Err(DeskStop::SamePerson(name));
    }
    Ok(())
}

/// Refusal 6.
pub fn deviable(plan: &Plan, guideline: Guideline) -> Result<(), DeskStop>
    ensures answer { Passes (refuse_if (is_mandatory (revised_category plan.now guideline)) (stops.MandatoryNotDeviable guideline)) result }
    ensures no_fault { is_fault result ≡ false }
{
    match revised(plan, guideline) {
        Category::Mandatory => Err(DeskStop::MandatoryNotDeviable(guideline)),
        _ => Ok(()),
    }
}

/// Refusals 8: the permit that is cited is there, if one is.
pub fn cited<K: Keeper>(
    alloc: Global,
    keeper: &mut K,
    permit: &Option<Name>,
) -> Result<Option<Permit>, DeskStop>
    ensures told { Told (K.tables keeper.old) (λ t. Cites permit.now t.permits result) }
    ensures tables { K.tables keeper.new ≡ K.tables keeper.old }
    ensures counted { Counted result (K.faults keeper.old) (K.faults keeper.new) }
{
    let Some(name) = permit else {
        return Ok(None);
    };
    match keeper.permit(alloc, name)? {
        Some(found) => Ok(Some(found)),
        None => Err(DeskStop::NoPermit),
    }
}

/// Refusal 7.
pub fn permitted(permit: &Option<Permit>, guideline: Guideline) -> Result<(), DeskStop>
    ensures answer { Passes (option_and_then (λ p. refuse_if (not (same_guideline p.guideline guideline)) (stops.PermitForOther p.guideline)) permit.now) result }
    ensures no_fault { is_fault result ≡ false }
{
    match permit {
        Some(found) if found.guideline != guideline => Err(DeskStop::PermitForOther(
            found.guideline,
        )),
        _ => Ok(()),
    }
}

/// Refusal 9.
pub fn not_lowered(guideline: Guideline, category: Category) -> Result<(), DeskStop>
    ensures answer { Passes (refuse_if (not (is_allowed guideline category)) (stops.Lowered guideline)) result }
    ensures no_fault { is_fault result ≡ false }
{
    if allowed(guideline, category) {
        Ok(())
    } else {
        Err(DeskStop::Lowered(guideline))
    }
}

/// Refusal 10.
pub fn none_approved(
    guideline: Guideline,
    category: Category,
    deviations: &[Deviation],
) -> Result<(), DeskStop>
    ensures answer { Passes (approved_against guideline category deviations.now) result }
    ensures no_fault { is_fault result ≡ false }
{
    let count = count_approved(guideline, deviations);
    if category == Category::Mandatory && count != 0 {
        Err(DeskStop::HasApprovedDeviations(count as u64))
    } else {
        Ok(())
    }
}

fn count_approved(guideline: Guideline, deviations: &[Deviation]) -> usize
    ensures { result ≡ approved_for guideline deviations.now }
{
    deviations
        .iter()
        .filter(|d| d.status == Status::Approved && d.guideline == guideline)
        .count()
}

/// Refusal 12.
pub fn admitted(caller: &Caller, project: &ProjectRow) -> Result<(), DeskStop>
    ensures answer { Passes (refuse_if (not (is_member_of caller.now project.now)) stops.NotMember) result }
    ensures no_fault { is_fault result ≡ false }
{
    if caller.belongs_to(project) {
        Ok(())
    } else {
        Err(DeskStop::NotMember)
    }
}

/// Refusal 14, of rows that are counted elsewhere.
pub fn below(most: u32, count: u64) -> Result<(), DeskStop>
    ensures answer { Passes (at_limit most count) result }
    ensures no_fault { is_fault result ≡ false }
{
    if count < u64::from(most) {
        Ok(())
    } else {
        Err(DeskStop::LimitReached(most))
    }
}

/// Refusal 14, of the replies that are kept for the caller. None is kept for the console.
pub fn room_to_keep<K: Keeper>(
    alloc: Global,
    keeper: &mut K,
    caller: &Caller,
) -> Result<(), DeskStop>
    ensures told { Told (K.tables keeper.old) (λ t. Passes (too_many_of caller.now (counts_of (name_of caller.now) t)) result) }
    ensures tables { K.tables keeper.new ≡ K.tables keeper.old }
    ensures counted { Counted result (K.faults keeper.old) (K.faults keeper.new) }
{
    match caller {
        Caller::Console => Ok(()),
        Caller::Member(name) => {
            let counts = keeper.counts(alloc, name)?;
            below(100_000, counts.kept)
        }
    }
}

/// Refusal 14, of the projects that the caller made and of the replies that are kept for it.
pub fn room_for_project<K: Keeper>(
    alloc: Global,
    keeper: &mut K,
    caller: &Caller,
) -> Result<(), DeskStop>
    ensures told { Told (K.tables keeper.old) (λ t. Passes (first_refusal (at_limit 256 (counts_of (name_of caller.now) t).projects ∷ too_many_of caller.now (counts_of (name_of caller.now) t) ∷ [])) result) }
    ensures tables { K.tables keeper.new ≡ K.tables keeper.old }
    ensures counted { Counted result (K.faults keeper.old) (K.faults keeper.new) }
{
    let name = Name::from_bytes(alloc, caller.name())?;
    let counts = keeper.counts(alloc, &name)?;
    below(256, counts.projects)?;
    match caller {
        Caller::Console => Ok(()),
        Caller::Member(_) => below(100_000, counts.kept),
    }
}

/// Refusal 14, of the permits that the caller made and of the replies that are kept for it.
pub fn room_for_permit<K: Keeper>(
    alloc: Global,
    keeper: &mut K,
    caller: &Caller,
) -> Result<(), DeskStop>
    ensures told { Told (K.tables keeper.old) (λ t. Passes (first_refusal (at_limit 1024 (counts_of (name_of caller.now) t).permits ∷ too_many_of caller.now (counts_of (name_of caller.now) t) ∷ [])) result) }
    ensures tables { K.tables keeper.new ≡ K.tables keeper.old }
    ensures counted { Counted result (K.faults keeper.old) (K.faults keeper.new) }
{
    let name = Name::from_bytes(alloc, caller.name())?;
    let counts = keeper.counts(alloc, &name)?;
    below(1_024, counts.permits)?;
    match caller {
        Caller::Console => Ok(()),
        Caller::Member(_) => below(100_000, counts.kept),
    }
}

/// Refusal 15.
pub fn submitted(project: &ProjectRow) -> Result<(), DeskStop>
    ensures answer { Passes (refuse_if (project.now.revision == 0) stops.NoRevision) result }
    ensures no_fault { is_fault result ≡ false }
{
    if project.revision == 0 {
        Err(DeskStop::NoRevision)
    } else {
        Ok(())
    }
}
