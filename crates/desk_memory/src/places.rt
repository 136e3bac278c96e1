//! The row with a key, and where it stands.
ghost use Rattle.std.specs.Prelude.{◌≡◌, ◌&&◌, filter, position};
ghost use Rattle.std.specs.List.{find};
ghost use Rattle.std.specs.Option.{option_copied};
ghost use Rattle.std.specs.Str.{bytes_eq};
ghost use Rattle.desk_tables.specs.Tables.{is_deviation, is_found_in, is_named, is_permit, same_request};

use desk_tables::{DeviationRow, FoundRow, KeptRow, ProjectRow};
use misra_base::{Name, Permit};

pub fn project_place(rows: &[ProjectRow], name: &Name) -> Option<usize>
    ensures { result ≡ position (is_named name.now) rows.now }
{
    rows.iter().position(|row| row.name == *name)
}

pub fn found_place(rows: &[FoundRow], project: &Name) -> Option<usize>
    ensures { result ≡ position (is_found_in project.now) rows.now }
{
    rows.iter().position(|row| row.project == *project)
}

pub fn deviation_place(rows: &[DeviationRow], project: &Name, id: u32) -> Option<usize>
    ensures { result ≡ position (is_deviation project.now id) rows.now }
{
    rows.iter()
        .position(|row| row.project == *project && row.deviation.id == id)
}

pub fn permit_place(rows: &[Permit], name: &Name) -> Option<usize>
    ensures { result ≡ position (is_permit name.now) rows.now }
{
    rows.iter().position(|row| row.name == *name)
}

pub fn kept_place(rows: &[KeptRow], kept: &KeptRow) -> Option<usize>
    ensures { result ≡ position (same_request kept.now) rows.now }
{
    rows.iter().position(|row| row.caller == kept.caller && row.request == kept.request)
}

pub fn project_named<'a>(rows: &'a [ProjectRow], name: &Name) -> Option<&'a ProjectRow>
    ensures { option_copied result ≡ find (is_named name.now) rows.now }
{
    rows.iter().find(|row| row.name == *name)
}

pub fn found_in<'a>(rows: &'a [FoundRow], project: &Name) -> Option<&'a FoundRow>
    ensures { option_copied result ≡ find (is_found_in project.now) rows.now }
{
    rows.iter().find(|row| row.project == *project)
}

pub fn permit_named<'a>(rows: &'a [Permit], name: &Name) -> Option<&'a Permit>
    ensures { option_copied result ≡ find (is_permit name.now) rows.now }
{
    rows.iter().find(|row| row.name == *name)
}

/// What was kept for the request of the caller.
pub fn kept_by<'a>(rows: &'a [KeptRow], caller: &Name, request: &Name) -> Option<&'a KeptRow>
    ensures { option_copied result ≡ find (λ row. bytes_eq row.request request.now) (filter (λ row. bytes_eq row.caller caller.now) rows.now) }
{
    first_kept(rows, caller, request)
}

fn first_kept<'a>(rows: &'a [KeptRow], caller: &Name, request: &Name) -> Option<&'a KeptRow>
    ensures { option_copied result ≡ find (λ row. bytes_eq row.caller caller.now && bytes_eq row.request request.now) rows.now }
{
    rows.iter()
        .find(|row| row.caller == *caller && row.request == *request)
}
