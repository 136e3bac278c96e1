//! The laws of pointers, for proofs over the runs of a program.
ghost use Rattle.c_program.specs.WellFormed.{IsWellFormed};
ghost use Rattle.pointer_targets.specs.Laws.{EachAddressIsAllowed, EachKeyIsAllowed, EachResultIsAllowed, EachNameIsAllowed, WhatIsLedToIsACandidate, ExactIsLedTo, WhatIsLedToIsNamed, WhatIsExactIsLedTo, StaticIsLedTo, OneCellIsMeant, NoneIsReachedByOthers, StaticHoldsStatic, KeysHoldStatic, ResultsAreStatic, EachReadIsAllowed, EachWriteIsAllowed, ConflictsAreTold};

use c_program::program::Program;

/// Each address that a cell, a key or an ended thread holds in a run is one that points-to allows there.
pub fn held(program: &Program)
    requires { IsWellFormed program.now }
    ensures cells { EachAddressIsAllowed program.now }
    ensures keys { EachKeyIsAllowed program.now }
    ensures results { EachResultIsAllowed program.now }
{}

/// Each address that an expression has where a thread stands is one that the expression may name there.
pub fn named(program: &Program)
    requires { IsWellFormed program.now }
    ensures { EachNameIsAllowed program.now }
{}

/// What an argument of a library call leads to is a candidate, and where the argument is exact, it is that location.
pub fn candidates(program: &Program)
    requires { IsWellFormed program.now }
    ensures candidates { WhatIsLedToIsACandidate program.now }
    ensures exact { ExactIsLedTo program.now }
{}

/// The same by tests that miss no name and call nothing exact that is not.
pub fn by_tests(program: &Program)
    requires { IsWellFormed program.now }
    ensures may_name { WhatIsLedToIsNamed program.now }
    ensures exact { WhatIsExactIsLedTo program.now }
{}

/// Where no library object is local, each one that an argument leads to is static; and those of one location are one.
pub fn libraries(program: &Program)
    requires { IsWellFormed program.now }
    ensures are_static { StaticIsLedTo program.now }
    ensures one_cell { OneCellIsMeant program.now }
{}

/// Where no local address escapes, none is reached by another thread.
pub fn apart(program: &Program)
    requires { IsWellFormed program.now }
    ensures threads { NoneIsReachedByOthers program.now }
    ensures static_objects { StaticHoldsStatic program.now }
    ensures keys { KeysHoldStatic program.now }
    ensures results { ResultsAreStatic program.now }
{}

/// A static data cell that a step reads or writes lies in a region that its action may read or write so; and two steps
/// that conflict at a cell have accesses that conflict at its region.
pub fn accesses(program: &Program)
    requires { IsWellFormed program.now }
    ensures reads { EachReadIsAllowed program.now }
    ensures writes { EachWriteIsAllowed program.now }
    ensures conflicts { ConflictsAreTold program.now }
{}
