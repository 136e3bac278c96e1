//! The tables of a desk from before deviations had a form.
ghost use Rattle.std.specs.Prelude.{◌≡◌, IfOk, map};
ghost use Rattle.desk_memory.specs.First as first;

use desk_tables::{DeviationRow, FoundRow, KeptRow, ProjectRow};
use misra_base::{Deviation, FindingList, FirstDeviation, Name, Permit};
use std::alloc::{AllocError, Global};
use std::marker::Model;

/// The five lists of tables from before deviations had a form: findings and deviations stand beside
/// the names of their projects.
#[derive(Debug, Drop)]
pub struct FirstTables {
    pub projects: Vec<ProjectRow>,
    pub findings: Vec<(Name, FindingList)>,
    pub deviations: Vec<(Name, FirstDeviation)>,
    pub permits: Vec<Permit>,
    pub kept: Vec<KeptRow>,
}

impl Model for FirstTables {
    ghost use Rattle.desk_memory.specs.First.{FirstLists};

    ghost Value = { FirstLists };

    ghost view = { λ t. record { projects = t.projects.items; findings = t.findings.items; deviations = t.deviations.items; permits = t.permits.items; kept = t.kept.items } };
}

/// The findings of each project.
pub fn found_rows(
    alloc: Global,
    rows: Vec<(Name, FindingList)>,
) -> Result<Vec<FoundRow>, AllocError>
    ensures { IfOk result (λ all. all.items ≡ map first.found_row rows.items) }
{
    rows.into_iter().map(found_row).collect(alloc)
}

fn found_row(row: (Name, FindingList)) -> FoundRow
    ensures { result ≡ first.found_row row }
{
    FoundRow {
        project: row.0,
        found: row.1,
    }
}

/// The deviations, each in the form of a text.
pub fn deviation_rows(
    alloc: Global,
    rows: Vec<(Name, FirstDeviation)>,
) -> Result<Vec<DeviationRow>, AllocError>
    ensures { IfOk result (λ all. all.items ≡ map first.deviation_row rows.items) }
{
    rows.into_iter().map(deviation_row).collect(alloc)
}

fn deviation_row(row: (Name, FirstDeviation)) -> DeviationRow
    ensures { result ≡ first.deviation_row row }
{
    DeviationRow {
        project: row.0,
        deviation: Deviation::from_first(row.1),
    }
}
