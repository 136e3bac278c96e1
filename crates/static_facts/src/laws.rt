//! What the facts of paths say of runs: laws for proofs over the runs of a program.
ghost use Rattle.c_program.specs.WellFormed.{IsWellFormed};
ghost use Rattle.pointer_targets.specs.Names.{Names};
ghost use Rattle.pointer_targets.specs.Candidates.{NamesAreSound};
ghost use Rattle.static_facts.specs.OwnerLaws.{EachDepthIsPossible, HeldIsOrdered, IsHandedOver};
ghost use Rattle.static_facts.specs.ThreadLaws.{OrderedEitherWay, OrderedHappenInOrder, UnmadeIsPossible, WhatIsSeenIsPossible};

use c_program::program::Program;

/// A running thread has of each static mutex, but of one that it waits with, a depth that is possible at its point.
pub fn owners(program: &Program)
    requires { IsWellFormed program.now }
    ensures { (names : Names) → NamesAreSound program.now names → EachDepthIsPossible program.now names }
{}

/// Between two ownerships of a mutex by different threads stand a release by the first and a taking by the second.
pub fn hand_over(program: &Program)
    requires { IsWellFormed program.now }
    ensures { IsHandedOver program.now }
{}

/// Two steps of different threads at whose points one mutex is surely held happen in order.
pub fn held_order(program: &Program)
    requires { IsWellFormed program.now }
    ensures { (names : Names) → NamesAreSound program.now names → HeldIsOrdered program.now names }
{}

/// What the initial thread has done with a static library object is a state that is possible at its point; and a mutex,
/// a condition variable or a key that was never begun may be unmade at the points of all threads.
pub fn states(program: &Program)
    requires { IsWellFormed program.now }
    ensures seen { (names : Names) → NamesAreSound program.now names → WhatIsSeenIsPossible program.now names }
    ensures unmade { (names : Names) → NamesAreSound program.now names → UnmadeIsPossible program.now names }
{}

/// Two steps at points that are ordered by creation and joining happen in order.
pub fn order(program: &Program)
    requires { IsWellFormed program.now }
    ensures either_way { (names : Names) → OrderedEitherWay program.now names }
    ensures threads { (names : Names) → NamesAreSound program.now names → OrderedHappenInOrder program.now names }
{}
