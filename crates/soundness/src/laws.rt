//! The promise of the whole: what the analyses find nothing of, no run does; and what it stands on.
ghost use Rattle.std.specs.Prelude.{◌≡◌};
ghost use Rattle.misra_base.specs.declared.guideline.Guideline.{Guideline as AGuideline};
ghost use Rattle.c_program.specs.WellFormed.{IsWellFormed};
ghost use Rattle.c_program.specs.Laws.{ControlIsSound};
ghost use Rattle.static_facts.specs.OwnerLaws.{EachDepthIsPossible, HeldIsOrdered, IsHandedOver};
ghost use Rattle.pointer_targets.specs.Escapes.{NoneEscapes};
ghost use Rattle.pointer_targets.specs.Laws.{EachAddressIsAllowed, EachKeyIsAllowed, EachNameIsAllowed, NoneIsReachedByOthers};
ghost use Rattle.static_facts.specs.ThreadLaws.{OrderedHappenInOrder, UnmadeIsPossible};
ghost use Rattle.guideline_findings.specs.LifeLaws.{DeadWhereClean, LiveWhereClean, OnlyMainReleases, ThreadStatesArePossible};
ghost use Rattle.static_facts.specs.Facts.{Facts};
ghost use Rattle.guideline_findings.specs.Silence.{IsSilent};
ghost use Rattle.guideline_findings.specs.WaitingLaws.{EachLinkIsAnEdge, EachWaitingCycleIsOfEdges};
ghost use Rattle.static_facts.specs.Analyses.{AreExact, AreSound};

use c_program::program::Program;

/// Exact answers are sound ones.
pub fn exact(program: &Program)
    ensures { (facts : Facts) → AreExact program.now facts → AreSound program.now facts }
{}

/// Control and pointers: each running thread stands before an action at a point that a path reaches; what is held and named
/// in a run, points-to allows; and where no local address escapes, none is reached by another thread.
pub fn control_and_pointers(program: &Program)
    requires { IsWellFormed program.now }
    ensures control { ControlIsSound program.now }
    ensures cells { EachAddressIsAllowed program.now }
    ensures keys { EachKeyIsAllowed program.now }
    ensures names { EachNameIsAllowed program.now }
    ensures apart { NoneIsReachedByOthers program.now }
{}

/// Owners: a running thread has of each static mutex, but of one that it waits with, a depth that is possible at its point;
/// between two ownerships by different threads stands a release by the first.
pub fn owners(program: &Program)
    requires { IsWellFormed program.now }
    ensures depths { (facts : Facts) → AreSound program.now facts → EachDepthIsPossible program.now facts.names }
    ensures hand_over { IsHandedOver program.now }
{}

/// Order: two steps at ordered points, or in different threads with one mutex surely held at both, happen in order.
pub fn order(program: &Program)
    requires { IsWellFormed program.now }
    ensures threads { (facts : Facts) → AreSound program.now facts → OrderedHappenInOrder program.now facts.names }
    ensures mutexes { (facts : Facts) → AreSound program.now facts → HeldIsOrdered program.now facts.names }
{}

/// Lives and joins: an object is unmade, live or dead in a run only where it may be so; so is a thread object; and only the
/// initial thread joins and detaches.
pub fn lives_and_joins(program: &Program)
    requires { IsWellFormed program.now }
    ensures unmade { (facts : Facts) → AreSound program.now facts → UnmadeIsPossible program.now facts.names }
    ensures live { (facts : Facts) → AreSound program.now facts → LiveWhereClean program.now facts }
    ensures dead { (facts : Facts) → AreSound program.now facts → DeadWhereClean program.now facts }
    ensures threads { (facts : Facts) → AreSound program.now facts → ThreadStatesArePossible program.now facts.names }
    ensures releases { (facts : Facts) → AreSound program.now facts → OnlyMainReleases program.now facts }
{}

/// Waiting: where the text is clean, each link of a waiting cycle is an edge of the graph, so such a cycle gives one of edges.
pub fn waiting(program: &Program)
    requires { IsWellFormed program.now }
    ensures links { (facts : Facts) → AreSound program.now facts → EachLinkIsAnEdge program.now facts }
    ensures edges { (facts : Facts) → AreSound program.now facts → EachWaitingCycleIsOfEdges program.now facts }
{}

/// Silence: where a guideline has no finding, no run breaks it, at no step, the last undefined one included.
pub fn silence(program: &Program)
    requires { IsWellFormed program.now }
    ensures of_exact { (facts : Facts) → AreExact program.now facts → (guideline : AGuideline) → IsSilent program.now facts guideline }
    ensures of_sound { (facts : Facts) → AreSound program.now facts → (guideline : AGuideline) → IsSilent program.now facts guideline }
{}
