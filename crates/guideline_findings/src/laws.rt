//! Where a guideline has no finding, no run breaks it: laws for proofs over the runs of a program.
ghost use Rattle.misra_base.specs.declared.guideline.Guideline.TheVariants.{D5_1, D5_2, D5_3, R21_25, R21_26, R22_11, R22_12, R22_13, R22_14, R22_15, R22_16, R22_17, R22_18, R22_19, R22_20};
ghost use Rattle.c_program.specs.WellFormed.{IsWellFormed};
ghost use Rattle.pointer_targets.specs.Names.{Names};
ghost use Rattle.pointer_targets.specs.Candidates.{NamesAreSound};
ghost use Rattle.pointer_targets.specs.Laws.{NoLocalLibrary};
ghost use Rattle.static_facts.specs.Facts.{Facts};
ghost use Rattle.static_facts.specs.Analyses.{AreSound};
ghost use Rattle.guideline_findings.specs.LifeLaws.{DeadWhereClean, LiveWhereClean, OnlyMainReleases, ThreadStatesArePossible};
ghost use Rattle.guideline_findings.specs.Silence.{HasCleanText, IsSilent, SemanticNeedsCleanText};
ghost use Rattle.guideline_findings.specs.WaitingLaws.{EachLinkIsAnEdge, EachWaitingCycleIsOfEdges};

use c_program::program::Program;

/// Where Rule 21.25, 22.12 or 22.13 has a finding, no semantic guideline is without one.
pub fn dependents(program: &Program)
    ensures { (facts : Facts) → SemanticNeedsCleanText program.now facts }
{}

/// Where these three rules have no finding, each library object is static.
pub fn libraries(program: &Program)
    requires { IsWellFormed program.now }
    ensures { (facts : Facts) → HasCleanText program.now facts → NoLocalLibrary program.now }
{}

/// Where the text has no weak memory order, no touch, or no library object that is not static, no run breaks the rule on it.
pub fn text(program: &Program)
    requires { IsWellFormed program.now }
    ensures orders { (facts : Facts) → IsSilent program.now facts R21_25 }
    ensures touches { (facts : Facts) → IsSilent program.now facts R22_12 }
    ensures objects { (facts : Facts) → IsSilent program.now facts R22_13 }
{}

/// Where Directive 5.1 has no finding, no run has a race.
pub fn races(program: &Program)
    requires { IsWellFormed program.now }
    ensures { (facts : Facts) → AreSound program.now facts → IsSilent program.now facts D5_1 }
{}

/// Each link of a waiting cycle is an edge of the graph; where Directive 5.2 has no finding, no run reaches a waiting cycle.
pub fn waits(program: &Program)
    requires { IsWellFormed program.now }
    ensures links { (facts : Facts) → NamesAreSound program.now facts.names → EachLinkIsAnEdge program.now facts }
    ensures edges { (facts : Facts) → NamesAreSound program.now facts.names → EachWaitingCycleIsOfEdges program.now facts }
    ensures cycles { (facts : Facts) → NamesAreSound program.now facts.names → IsSilent program.now facts D5_2 }
{}

/// Where Rule 21.26, or Rule 22.19, has no finding, no run breaks it.
pub fn mutexes(program: &Program)
    requires { IsWellFormed program.now }
    ensures timed { (facts : Facts) → NamesAreSound program.now facts.names → IsSilent program.now facts R21_26 }
    ensures conditions { (facts : Facts) → NamesAreSound program.now facts.names → IsSilent program.now facts R22_19 }
{}

/// Where Rules 22.16, 22.17 and 22.18 have no finding, no run breaks them.
pub fn owned(program: &Program)
    requires { IsWellFormed program.now }
    ensures ends { (facts : Facts) → NamesAreSound program.now facts.names → IsSilent program.now facts R22_16 }
    ensures unlocks { (facts : Facts) → NamesAreSound program.now facts.names → IsSilent program.now facts R22_17 }
    ensures locks { (facts : Facts) → NamesAreSound program.now facts.names → IsSilent program.now facts R22_18 }
{}

/// Where no other thread creates, joins or detaches by a thread object, its state in a run is possible at the initial
/// thread's point; so is the life of another object that is live or dead, where its rule has no finding.
pub fn lives(program: &Program)
    requires { IsWellFormed program.now }
    ensures threads { (names : Names) → NamesAreSound program.now names → ThreadStatesArePossible program.now names }
    ensures live { (facts : Facts) → AreSound program.now facts → LiveWhereClean program.now facts }
    ensures dead { (facts : Facts) → AreSound program.now facts → DeadWhereClean program.now facts }
{}

/// Where Rule 22.11 has no finding, only the initial thread joins and detaches.
pub fn joins(program: &Program)
    requires { IsWellFormed program.now }
    ensures { (facts : Facts) → AreSound program.now facts → OnlyMainReleases program.now facts }
{}

/// Where Directive 5.3 and Rules 22.11, 22.14, 22.15 and 22.20 have no finding, no run breaks them.
pub fn threads(program: &Program)
    requires { IsWellFormed program.now }
    ensures creations { (facts : Facts) → IsSilent program.now facts D5_3 }
    ensures releases { (facts : Facts) → AreSound program.now facts → IsSilent program.now facts R22_11 }
    ensures lives { (facts : Facts) → AreSound program.now facts → IsSilent program.now facts R22_14 }
    ensures ends { (facts : Facts) → AreSound program.now facts → IsSilent program.now facts R22_15 }
    ensures keys { (facts : Facts) → AreSound program.now facts → IsSilent program.now facts R22_20 }
{}
