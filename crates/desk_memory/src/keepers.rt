ghost use Rattle.std.specs.Prelude.{◌≡◌, Some, IfOk, IsErrOf, true, []};
ghost use Rattle.desk_tables.specs.Causes.{HasCause};
ghost use Rattle.desk_tables.specs.Keeping.{Changed, Reads, Told};
ghost use Rattle.desk_tables.specs.Tables.{counts_of, deviations_of, findings_of, kept_by, no_tables, permit_named, project_named};
ghost use Rattle.desk_tables.specs.Keepable.{keeps_rightly};
ghost use Rattle.desk_tables.specs.Keys.{has_keys};
ghost use Rattle.desk_tables.specs.declared.keeper.KeepStop.TheVariants as keep_stops;
ghost use Rattle.desk_memory.specs.Calls.{IsNumbered};
ghost use Rattle.desk_memory.specs.First.{tables_from};
ghost use Rattle.desk_memory.specs.Stores.{tables_of};
ghost use Rattle.desk_memory.specs.Telling.{told_keyed};

use crate::calls::Calls;
use crate::first::{FirstTables, deviation_rows, found_rows};
use crate::store::Store;
use desk_tables::{Change, Counts, KeepStop, Keeper, KeptRow, ProjectRow};
use misra_base::{DeviationList, FindingList, Name, Permit};
use std::alloc::{AllocError, Global};

/// A keeper in memory that never fails. It tells its tables, and its count of faults is 0.
#[derive(Debug, Drop)]
pub struct SureKeeper {
    store: Store,
    ghost keyed: { has_keys (tables_of store) ≡ true },
}

impl SureKeeper {
    /// A keeper with no rows.
    pub fn new(alloc: Global) -> SureKeeper
        ensures { tables_of result.store ≡ no_tables }
    {
        SureKeeper {
            store: Store::new(alloc),
        }
    }
}

impl Keeper for SureKeeper {
    ghost tables = { λ k. Some (tables_of k.store) };

    ghost faults = { λ _. 0 };

    fn project(&mut self, _: Global, name: &Name) -> Result<Option<ProjectRow>, KeepStop> {
        Ok(self.store.project(name)?)
    }

    fn findings(&mut self, alloc: Global, project: &Name) -> Result<FindingList, KeepStop> {
        Ok(self.store.findings(alloc, project)?)
    }

    fn deviations(&mut self, alloc: Global, project: &Name) -> Result<DeviationList, KeepStop> {
        Ok(self.store.deviations(alloc, project)?)
    }

    fn permit(&mut self, _: Global, name: &Name) -> Result<Option<Permit>, KeepStop> {
        Ok(self.store.permit(name)?)
    }

    fn kept(
        &mut self,
        _: Global,
        caller: &Name,
        request: &Name,
    ) -> Result<Option<KeptRow>, KeepStop> {
        Ok(self.store.kept(caller, request)?)
    }

    fn counts(&mut self, _: Global, caller: &Name) -> Result<Counts, KeepStop> {
        Ok(self.store.counts(caller))
    }

    fn change(&mut self, _: Global, change: &Change) -> Result<(), KeepStop> {
        Ok(self.store.change(change)?)
    }

    ghost keyed = { λ k t is. told_keyed (tables_of k.store) t k.keyed is };
}

/// A keeper in memory whose calls fail where their numbers, from 1, are listed.
#[derive(Debug, Drop)]
pub struct MemoryKeeper {
    store: Store,
    calls: Calls,
    ghost keyed: { has_keys (tables_of store) ≡ true },
}

impl MemoryKeeper {
    /// A keeper with no rows. `failing` has the numbers of the calls that fail.
    pub fn new(alloc: Global, failing: Vec<u64>) -> MemoryKeeper
        ensures tables { tables_of result.store ≡ no_tables }
        ensures made { result.calls.made ≡ 0 }
        ensures failing { result.calls.failing.items ≡ failing.items }
        ensures faults { result.calls.faults ≡ 0 }
    {
        MemoryKeeper {
            store: Store::new(alloc),
            calls: Calls::new(failing),
        }
    }

    /// A keeper with these tables, each deviation in the form of a text. None of its calls is to fail.
    /// In each list the rows have different keys, and no project stands twice in the findings.
    pub fn from_first(alloc: Global, first: FirstTables) -> Result<MemoryKeeper, AllocError>
        requires { has_keys (tables_from first) ≡ true }
        ensures tables { IfOk result (λ k. tables_of k.store ≡ tables_from first) }
        ensures made { IfOk result (λ k. k.calls.made ≡ 0) }
        ensures failing { IfOk result (λ k. k.calls.failing.items ≡ []) }
        ensures faults { IfOk result (λ k. k.calls.faults ≡ 0) }
    {
        let FirstTables {
            projects,
            findings,
            deviations,
            permits,
            kept,
        } = first;
        Ok(MemoryKeeper {
            store: Store {
                projects,
                findings: found_rows(alloc, findings)?,
                deviations: deviation_rows(alloc, deviations)?,
                permits,
                kept,
            },
            calls: Calls::new(Vec::new(alloc)),
        })
    }
}

impl Keeper for MemoryKeeper {
    ghost tables = { λ k. Some (tables_of k.store) };

    ghost faults = { λ k. k.calls.faults };

    fn project(&mut self, _: Global, name: &Name) -> Result<Option<ProjectRow>, KeepStop>
        ensures numbered { IsNumbered self.old.calls self.new.calls result }
        ensures told { Reads (Some (tables_of self.old.store)) (project_named name.now) result }
        ensures tables { Some (tables_of self.new.store) ≡ Some (tables_of self.old.store) }
        ensures cause { HasCause keep_stops.Failed self.old.calls.faults self.new.calls.faults result }
        ensures memory { IsErrOf result keep_stops.Memory → self.new.calls.faults ≡ self.old.calls.faults }
    {
        self.calls.begin()?;
        Ok(self.store.project(name)?)
    }

    fn findings(&mut self, alloc: Global, project: &Name) -> Result<FindingList, KeepStop>
        ensures numbered { IsNumbered self.old.calls self.new.calls result }
        ensures told { Reads (Some (tables_of self.old.store)) (findings_of project.now) result }
        ensures tables { Some (tables_of self.new.store) ≡ Some (tables_of self.old.store) }
        ensures cause { HasCause keep_stops.Failed self.old.calls.faults self.new.calls.faults result }
        ensures memory { IsErrOf result keep_stops.Memory → self.new.calls.faults ≡ self.old.calls.faults }
    {
        self.calls.begin()?;
        Ok(self.store.findings(alloc, project)?)
    }

    fn deviations(&mut self, alloc: Global, project: &Name) -> Result<DeviationList, KeepStop>
        ensures numbered { IsNumbered self.old.calls self.new.calls result }
        ensures told { Reads (Some (tables_of self.old.store)) (deviations_of project.now) result }
        ensures tables { Some (tables_of self.new.store) ≡ Some (tables_of self.old.store) }
        ensures cause { HasCause keep_stops.Failed self.old.calls.faults self.new.calls.faults result }
        ensures memory { IsErrOf result keep_stops.Memory → self.new.calls.faults ≡ self.old.calls.faults }
    {
        self.calls.begin()?;
        Ok(self.store.deviations(alloc, project)?)
    }

    fn permit(&mut self, _: Global, name: &Name) -> Result<Option<Permit>, KeepStop>
        ensures numbered { IsNumbered self.old.calls self.new.calls result }
        ensures told { Reads (Some (tables_of self.old.store)) (permit_named name.now) result }
        ensures tables { Some (tables_of self.new.store) ≡ Some (tables_of self.old.store) }
        ensures cause { HasCause keep_stops.Failed self.old.calls.faults self.new.calls.faults result }
        ensures memory { IsErrOf result keep_stops.Memory → self.new.calls.faults ≡ self.old.calls.faults }
    {
        self.calls.begin()?;
        Ok(self.store.permit(name)?)
    }

    fn kept(
        &mut self,
        _: Global,
        caller: &Name,
        request: &Name,
    ) -> Result<Option<KeptRow>, KeepStop>
        ensures numbered { IsNumbered self.old.calls self.new.calls result }
        ensures told { Reads (Some (tables_of self.old.store)) (kept_by caller.now request.now) result }
        ensures tables { Some (tables_of self.new.store) ≡ Some (tables_of self.old.store) }
        ensures cause { HasCause keep_stops.Failed self.old.calls.faults self.new.calls.faults result }
        ensures memory { IsErrOf result keep_stops.Memory → self.new.calls.faults ≡ self.old.calls.faults }
    {
        self.calls.begin()?;
        Ok(self.store.kept(caller, request)?)
    }

    fn counts(&mut self, _: Global, caller: &Name) -> Result<Counts, KeepStop>
        ensures numbered { IsNumbered self.old.calls self.new.calls result }
        ensures told { Reads (Some (tables_of self.old.store)) (counts_of caller.now) result }
        ensures tables { Some (tables_of self.new.store) ≡ Some (tables_of self.old.store) }
        ensures cause { HasCause keep_stops.Failed self.old.calls.faults self.new.calls.faults result }
        ensures memory { IsErrOf result keep_stops.Memory → self.new.calls.faults ≡ self.old.calls.faults }
    {
        self.calls.begin()?;
        Ok(self.store.counts(caller))
    }

    fn change(&mut self, _: Global, change: &Change) -> Result<(), KeepStop>
        requires kept { keeps_rightly change.now.kept ≡ true }
        ensures numbered { IsNumbered self.old.calls self.new.calls result }
        ensures told { Told (Some (tables_of self.old.store)) (λ t. Changed change.now t (Some (tables_of self.new.store)) result) }
        ensures cause { HasCause keep_stops.Failed self.old.calls.faults self.new.calls.faults result }
        ensures memory { IsErrOf result keep_stops.Memory → self.new.calls.faults ≡ self.old.calls.faults }
    {
        self.calls.begin()?;
        Ok(self.store.change(change)?)
    }

    ghost keyed = { λ k t is. told_keyed (tables_of k.store) t k.keyed is };
}
