//! What silence says is not empty: a text with exact answers and no finding, and texts with a finding, each with a run that breaks
//! the guideline.
ghost use Rattle.std.specs.Prelude.{List, [], ◌∷◌, Some, None};
ghost use Rattle.misra_base.specs.declared.guideline.Guideline.TheVariants.{D5_1, D5_2, R22_17};
ghost use Rattle.misra_base.specs.declared.kind.Kind.TheVariants as kinds;
ghost use Rattle.c_program.specs.Step.{Choice};
ghost use Rattle.c_program.specs.Runs.{IsRun};
ghost use Rattle.c_program.specs.Breaks.{Breaks};
ghost use Rattle.static_facts.specs.Analyses.{AreExact};
ghost use Rattle.guideline_findings.specs.Findings.{Named_location, IsClean};
ghost use Rattle.litmus.specs.Pieces.{at, goes, answers, in_order, m, t, x};
ghost use Rattle.litmus.specs.Statements.{EndsIn};
ghost use Rattle.litmus.specs.Guidelines.{two_writes, join_of_a_locker};
ghost use Rattle.silence_samples.specs.Samples.{static, HasFinding, unlock_by_another};
ghost use Rattle.silence_samples.specs.Locked.{locked_writes, locked_facts};

/// Two threads write an object under one mutex: the given answers are exact, Directive 5.1 has no finding, and so no run has a race.
pub fn locked()
    ensures exact { AreExact locked_writes locked_facts }
    ensures clean { IsClean locked_writes locked_facts D5_1 }
    ensures silent { (run : List Choice) → IsRun locked_writes run → Breaks D5_1 locked_writes run → ⊥ }
{}

/// Directive 5.1: two threads write an object without a lock.
pub fn race()
    ensures found { HasFinding two_writes D5_1 (at 5 50) (Named_location (static x)) kinds.Race (Some (at 4 27)) }
    ensures run { EndsIn D5_1 two_writes (in_order (answers 0 0 ∷ goes 0 ∷ goes 1 ∷ [])) }
{}

/// Directive 5.2: `main` owns a mutex and joins a thread that waits for it.
pub fn waiting_cycle()
    ensures found { HasFinding join_of_a_locker D5_2 (at 5 107) (Named_location (static t)) kinds.Cycle None }
    ensures run { EndsIn D5_2 join_of_a_locker (in_order (answers 0 0 ∷ goes 0 ∷ answers 0 0 ∷ [])) }
{}

/// Rule 22.17: a thread unlocks a mutex that `main` owns.
pub fn wrong_owner()
    ensures found { HasFinding unlock_by_another R22_17 (at 4 33) (Named_location (static m)) kinds.Unlock None }
    ensures run { EndsIn R22_17 unlock_by_another (in_order (answers 0 0 ∷ goes 0 ∷ answers 0 0 ∷ goes 1 ∷ [])) }
{}
