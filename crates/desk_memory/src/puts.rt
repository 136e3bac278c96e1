//! A row is put in the place of the row with its key, or at the end.
ghost use Rattle.std.specs.Prelude.{◌≡◌, ◌+◌, ◌<◌, ◌≤◌, IfSome, MatchResult, vec_len, vec_capacity};
ghost use Rattle.desk_tables.specs.Tables.{is_deviation, is_found_in, is_named, is_permit, put, same_request};
ghost use Rattle.desk_memory.specs.Places.{placed};

use crate::places;
use desk_tables::{DeviationRow, FoundRow, KeptRow, ProjectRow};
use misra_base::{Name, Permit};
use std::alloc::AllocError;

/// Puts the row at the place, or at the end.
fn place<T: Drop>(rows: &mut Vec<T>, at: Option<usize>, row: T)
    requires within { IfSome at (λ i. i < vec_len rows.old) }
    requires room { vec_len rows.old < vec_capacity rows.old }
    ensures { rows.new.items ≡ placed at row rows.old.items }
{
    match at {
        Some(at) => rows[at] = row,
        None => rows.push_reserved(row),
    }
}

#[tactic(auto, using(crate::proofs::Placed::puts))]
pub fn put_project(rows: &mut Vec<ProjectRow>, row: ProjectRow) -> Result<(), AllocError>
    ensures { MatchResult result (λ _. rows.new.items ≡ put (is_named row.name) row rows.old.items) (λ _. rows.new.items ≡ rows.old.items) }
{
    rows.reserve(1)?;
    let at = places::project_place(rows, &row.name);
    place(rows, at, row);
    Ok(())
}

/// The row of the project of this name, which keeps its place.
#[tactic(auto, using(crate::proofs::Placed::puts))]
pub fn set_project(
    rows: &mut Vec<ProjectRow>,
    name: &Name,
    row: ProjectRow,
) -> Result<(), AllocError>
    ensures { MatchResult result (λ _. rows.new.items ≡ put (is_named name.now) row rows.old.items) (λ _. rows.new.items ≡ rows.old.items) }
{
    rows.reserve(1)?;
    let at = places::project_place(rows, name);
    place(rows, at, row);
    Ok(())
}

/// There is room for one more row.
#[tactic(auto, using(crate::proofs::Placed::puts))]
pub fn put_found(rows: &mut Vec<FoundRow>, row: FoundRow)
    requires { vec_len rows.old < vec_capacity rows.old }
    ensures { rows.new.items ≡ put (is_found_in row.project) row rows.old.items }
{
    let at = places::found_place(rows, &row.project);
    place(rows, at, row);
}

#[tactic(auto, using(crate::proofs::Placed::puts))]
pub fn put_deviation(rows: &mut Vec<DeviationRow>, row: DeviationRow) -> Result<(), AllocError>
    ensures { MatchResult result (λ _. rows.new.items ≡ put (is_deviation row.project row.deviation.id) row rows.old.items) (λ _. rows.new.items ≡ rows.old.items) }
{
    rows.reserve(1)?;
    let at = places::deviation_place(rows, &row.project, row.deviation.id);
    place(rows, at, row);
    Ok(())
}

#[tactic(auto, using(crate::proofs::Placed::puts))]
pub fn put_permit(rows: &mut Vec<Permit>, row: Permit) -> Result<(), AllocError>
    ensures { MatchResult result (λ _. rows.new.items ≡ put (is_permit row.name) row rows.old.items) (λ _. rows.new.items ≡ rows.old.items) }
{
    rows.reserve(1)?;
    let at = places::permit_place(rows, &row.name);
    place(rows, at, row);
    Ok(())
}

/// There is room for one more row.
#[tactic(auto, using(crate::proofs::Placed::puts))]
pub fn put_kept(rows: &mut Vec<KeptRow>, row: KeptRow)
    requires { vec_len rows.old < vec_capacity rows.old }
    ensures { rows.new.items ≡ put (same_request row) row rows.old.items }
{
    let at = places::kept_place(rows, &row);
    place(rows, at, row);
}
