//! The five lists of the tables, with what is read of them and how they are changed.
ghost use Rattle.std.specs.Prelude.{◌≡◌, IfOk, MatchResult};
ghost use Rattle.desk_tables.specs.Tables.{after_change, after_write, counts_of, deviations_of, findings_of, kept_by, no_tables, permit_named, project_named};
ghost use Rattle.desk_tables.specs.declared.change.Write.TheVariants as writes;
ghost use Rattle.desk_memory.specs.Stores.{tables_of};

use crate::counting::{kept_for, permits_by, projects_by};
use crate::ordering::deviations_in;
use crate::{places, puts};
use desk_tables::{Change, Counts, DeviationRow, FoundRow, KeptRow, ProjectRow, Write};
use misra_base::{DeviationList, FindingList, Name, Permit, Plan};
use std::alloc::{AllocError, Global};

/// The tables of a desk.
#[derive(Debug, Drop)]
pub struct Store {
    pub projects: Vec<ProjectRow>,
    pub findings: Vec<FoundRow>,
    pub deviations: Vec<DeviationRow>,
    pub permits: Vec<Permit>,
    pub kept: Vec<KeptRow>,
}

impl Store {
    /// No rows yet.
    pub fn new(alloc: Global) -> Store
        ensures { tables_of result ≡ no_tables }
    {
        Store {
            projects: Vec::new(alloc),
            findings: Vec::new(alloc),
            deviations: Vec::new(alloc),
            permits: Vec::new(alloc),
            kept: Vec::new(alloc),
        }
    }

    pub fn project(&self, name: &Name) -> Result<Option<ProjectRow>, AllocError>
        ensures { IfOk result (λ row. row ≡ project_named name.now (tables_of self.now)) }
    {
        match places::project_named(&self.projects, name) {
            Some(row) => Ok(Some(row.clone()?)),
            None => Ok(None),
        }
    }

    pub fn findings(&self, alloc: Global, project: &Name) -> Result<FindingList, AllocError>
        ensures { IfOk result (λ found. found ≡ findings_of project.now (tables_of self.now)) }
    {
        match places::found_in(&self.findings, project) {
            Some(row) => row.found.clone(),
            None => Ok(FindingList::from_vec(Vec::new(alloc))),
        }
    }

    pub fn deviations(&self, alloc: Global, project: &Name) -> Result<DeviationList, AllocError>
        ensures { IfOk result (λ all. all ≡ deviations_of project.now (tables_of self.now)) }
    {
        Ok(DeviationList::from_vec(deviations_in(alloc, &self.deviations, project)?))
    }

    pub fn permit(&self, name: &Name) -> Result<Option<Permit>, AllocError>
        ensures { IfOk result (λ row. row ≡ permit_named name.now (tables_of self.now)) }
    {
        match places::permit_named(&self.permits, name) {
            Some(row) => Ok(Some(row.clone()?)),
            None => Ok(None),
        }
    }

    pub fn kept(&self, caller: &Name, request: &Name) -> Result<Option<KeptRow>, AllocError>
        ensures { IfOk result (λ row. row ≡ kept_by caller.now request.now (tables_of self.now)) }
    {
        match places::kept_by(&self.kept, caller, request) {
            Some(row) => Ok(Some(row.clone()?)),
            None => Ok(None),
        }
    }

    pub fn counts(&self, caller: &Name) -> Counts
        ensures { result ≡ counts_of caller.now (tables_of self.now) }
    {
        Counts {
            projects: projects_by(&self.projects, caller) as u64,
            permits: permits_by(&self.permits, caller) as u64,
            kept: kept_for(&self.kept, caller) as u64,
        }
    }

    /// Makes the whole change, or none of it.
    pub fn change(&mut self, change: &Change) -> Result<(), AllocError>
        ensures { MatchResult result (λ _. tables_of self.new ≡ after_change change.now (tables_of self.old)) (λ _. tables_of self.new ≡ tables_of self.old) }
    {
        self.kept.reserve(1)?;
        let Change { write, kept } = change.clone()?;
        self.write(write)?;
        if let Some(row) = kept {
            puts::put_kept(&mut self.kept, row);
        }
        Ok(())
    }

    fn write(&mut self, write: Write) -> Result<(), AllocError>
        ensures written { MatchResult result (λ _. tables_of self.new ≡ after_write write (tables_of self.old)) (λ _. tables_of self.new ≡ tables_of self.old) }
        ensures kept { self.new.kept ≡ self.old.kept }
    {
        match write {
            Write::NewProject(row) => puts::put_project(&mut self.projects, row),
            Write::NewRevision(project, number, found) => self.revise(project, number, found),
            Write::NewDeviation(project, deviation) => {
                puts::put_deviation(&mut self.deviations, DeviationRow { project, deviation })
            }
            Write::SetDeviation(project, deviation) => {
                puts::put_deviation(&mut self.deviations, DeviationRow { project, deviation })
            }
            Write::NewPermit(permit) => puts::put_permit(&mut self.permits, permit),
            Write::SetPlan(project, plan) => self.replan(&project, plan),
        }
    }

    fn revise(&mut self, project: Name, number: u32, found: FindingList) -> Result<(), AllocError>
        ensures written { MatchResult result (λ _. tables_of self.new ≡ after_write (writes.NewRevision project number found) (tables_of self.old)) (λ _. tables_of self.new ≡ tables_of self.old) }
        ensures kept { self.new.kept ≡ self.old.kept }
    {
        let Some(row) = self.project(&project)? else {
            return Ok(());
        };
        self.findings.reserve(1)?;
        puts::set_project(
            &mut self.projects,
            &project,
            ProjectRow {
                revision: number,
                ..row
            },
        )?;
        puts::put_found(&mut self.findings, FoundRow { project, found });
        Ok(())
    }

    fn replan(&mut self, project: &Name, plan: Plan) -> Result<(), AllocError>
        ensures written { MatchResult result (λ _. tables_of self.new ≡ after_write (writes.SetPlan project.now plan) (tables_of self.old)) (λ _. tables_of self.new ≡ tables_of self.old) }
        ensures kept { self.new.kept ≡ self.old.kept }
    {
        let Some(row) = self.project(project)? else {
            return Ok(());
        };
        puts::set_project(&mut self.projects, project, ProjectRow { plan, ..row })
    }
}
