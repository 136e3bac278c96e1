//! Happens before and races of a program's runs are those that clocks tell.
ghost use Rattle.run_clocks.specs.Laws.{BeforeIsOfSteps, EachRunIsHeard, ClocksTellBefore, ClocksTellRaces, RacesAreOfSteps};

use c_program::Program;

/// Of the steps of a run, the one happens before the other exactly where it does among what clocks follow of them, and
/// a run breaks Dir 5.1 exactly where its last step races on a data cell there.
pub fn of_steps(program: &Program)
    ensures before { BeforeIsOfSteps program.now }
    ensures races { RacesAreOfSteps program.now }
{}

/// The clock of a step tells exactly which earlier steps of the run happen before it, each by its thread and its number
/// there; and a run breaks Dir 5.1 exactly where the last access of some thread to a data cell conflicts with the last
/// step and is not among what its clock tells.
pub fn by_clocks(program: &Program)
    ensures heard { EachRunIsHeard program.now }
    ensures before { ClocksTellBefore program.now }
    ensures races { ClocksTellRaces program.now }
{}
