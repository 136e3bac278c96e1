ghost use Rattle.std.specs.Prelude.{◌≡◌, ℕ, IsErrOf, true};
ghost use Rattle.std.specs.declared.option.Option.{Option};
ghost use Rattle.desk_tables.specs.Causes.{HasCause};
ghost use Rattle.desk_tables.specs.Keepable.{keeps_rightly};
ghost use Rattle.desk_tables.specs.Keys.{IsKeyed};
ghost use Rattle.desk_tables.specs.Keeping.{Told, Reads, Changed};
ghost use Rattle.desk_tables.specs.Tables.{Tables, project_named, findings_of, deviations_of, permit_named, kept_by, counts_of};

use crate::change::Change;
use crate::rows::{Counts, KeptRow, ProjectRow};
use misra_base::{DeviationList, FindingList, Name, Permit};
use std::alloc::{AllocError, Global};

/// Why a keeper did not answer.
#[derive(Clone, Copy, Debug, PartialEq, Eq)]
pub enum KeepStop {
    /// The keeper failed, and counted it.
    Failed,
    /// There was no memory for the call. No count rises.
    Memory,
}

impl From<AllocError> for KeepStop {
    ghost use Rattle.desk_tables.specs.declared.keeper.KeepStop.TheVariants.{Memory};

    ghost from_gives = { λ _ e. e ≡ Memory };

    fn from(_: AllocError) -> KeepStop {
        KeepStop::Memory
    }
}

/// A keeper of the desk's tables. Each call answers `Failed` only where the keeper's count of faults
/// rose in it, and `Memory` where it found none. The calls that read leave the tables.
pub trait Keeper {
    /// The tables, where the keeper tells them.
    ghost tables: { Self → Option Tables };

    /// How many calls of this keeper failed.
    ghost faults: { Self → ℕ };

    /// The row of the project of this name, None where there is none.
    fn project(&mut self, alloc: Global, name: &Name) -> Result<Option<ProjectRow>, KeepStop>
        ensures told { Reads (tables self.old) (project_named name.now) result }
        ensures tables { tables self.new ≡ tables self.old }
        ensures cause { HasCause KeepStop.Failed (faults self.old) (faults self.new) result }
        ensures memory { IsErrOf result KeepStop.Memory → faults self.new ≡ faults self.old };

    /// The findings of the project's last accepted revision, none where there is none.
    fn findings(&mut self, alloc: Global, project: &Name) -> Result<FindingList, KeepStop>
        ensures told { Reads (tables self.old) (findings_of project.now) result }
        ensures tables { tables self.new ≡ tables self.old }
        ensures cause { HasCause KeepStop.Failed (faults self.old) (faults self.new) result }
        ensures memory { IsErrOf result KeepStop.Memory → faults self.new ≡ faults self.old };

    /// The deviations of the project, by id.
    fn deviations(&mut self, alloc: Global, project: &Name) -> Result<DeviationList, KeepStop>
        ensures told { Reads (tables self.old) (deviations_of project.now) result }
        ensures tables { tables self.new ≡ tables self.old }
        ensures cause { HasCause KeepStop.Failed (faults self.old) (faults self.new) result }
        ensures memory { IsErrOf result KeepStop.Memory → faults self.new ≡ faults self.old };

    /// The permit of this name, None where there is none.
    fn permit(&mut self, alloc: Global, name: &Name) -> Result<Option<Permit>, KeepStop>
        ensures told { Reads (tables self.old) (permit_named name.now) result }
        ensures tables { tables self.new ≡ tables self.old }
        ensures cause { HasCause KeepStop.Failed (faults self.old) (faults self.new) result }
        ensures memory { IsErrOf result KeepStop.Memory → faults self.new ≡ faults self.old };

    /// What was kept for a request of the caller, None where nothing was.
    fn kept(
        &mut self,
        alloc: Global,
        caller: &Name,
        request: &Name,
    ) -> Result<Option<KeptRow>, KeepStop>
        ensures told { Reads (tables self.old) (kept_by caller.now request.now) result }
        ensures tables { tables self.new ≡ tables self.old }
        ensures cause { HasCause KeepStop.Failed (faults self.old) (faults self.new) result }
        ensures memory { IsErrOf result KeepStop.Memory → faults self.new ≡ faults self.old };

    /// How many rows the caller made.
    fn counts(&mut self, alloc: Global, caller: &Name) -> Result<Counts, KeepStop>
        ensures told { Reads (tables self.old) (counts_of caller.now) result }
        ensures tables { tables self.new ≡ tables self.old }
        ensures cause { HasCause KeepStop.Failed (faults self.old) (faults self.new) result }
        ensures memory { IsErrOf result KeepStop.Memory → faults self.new ≡ faults self.old };

    /// Makes the whole change, or after an `Err` none of it; after `Failed` it may have been made.
    /// A kept reply is `Made`, `Revision`, `Raised` or `Done`.
    fn change(&mut self, alloc: Global, change: &Change) -> Result<(), KeepStop>
        requires kept { keeps_rightly change.now.kept ≡ true }
        ensures told { Told (tables self.old) (λ t. Changed change.now t (tables self.new) result) }
        ensures cause { HasCause KeepStop.Failed (faults self.old) (faults self.new) result }
        ensures memory { IsErrOf result KeepStop.Memory → faults self.new ≡ faults self.old };

    /// In the tables that are told no two rows of a list have the same key.
    ghost keyed: { (k : Self) → Told (tables k) IsKeyed };
}
